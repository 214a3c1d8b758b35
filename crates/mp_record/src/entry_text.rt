ghost use Rattle.std.specs.Prelude.{◌≡◌, ◌++◌, flat_map, codes, decimal, length, OnOk};
ghost use Rattle.mp_record.specs.RecordText.{entry_text, escaped};

use crate::item_text::{push_counted, push_text};
use mp_rules::DirEntry;
use mp_types::Text;
use std::alloc::AllocError;

// The entry of a file, behind a word that says where the file stands.
fn push_file(out: &mut Vec<u8>, word: &[u8], size: u64, name: &Text) -> Result<(), AllocError>
    ensures { OnOk result (out.new.items ≡ out.old.items ++ (word.now ++ (decimal size ++ (codes ":" ++ escaped name.now)))) }
{
    push_counted(out, word, size)?;
    out.extend_from_slice(b":")?;
    push_text(out, name)
}

fn push_entry(out: &mut Vec<u8>, entry: &DirEntry) -> Result<(), AllocError>
    ensures { OnOk result (out.new.items ≡ out.old.items ++ entry_text entry.now) }
{
    match entry {
        DirEntry::Dir { name } => {
            out.extend_from_slice(b" d:")?;
            push_text(out, name)
        }
        DirEntry::Remote { size, name } => push_file(out, b" f:", *size, name),
        DirEntry::Writing { size, name } => push_file(out, b" w:", *size, name),
    }
}

fn push_each_entry(out: &mut Vec<u8>, entries: &[DirEntry]) -> Result<(), AllocError>
    ensures { OnOk result (out.new.items ≡ out.old.items ++ flat_map entry_text entries.now) }
{
    for entry in entries {
        push_entry(out, entry)?;
    }
    Ok(())
}

/// How many entries there are, and each of them.
pub fn push_listing(out: &mut Vec<u8>, entries: &[DirEntry]) -> Result<(), AllocError>
    ensures { OnOk result (out.new.items ≡ out.old.items ++ (codes "list " ++ (decimal (length entries.now) ++ flat_map entry_text entries.now))) }
{
    push_counted(out, b"list ", entries.len() as u64)?;
    push_each_entry(out, entries)
}
