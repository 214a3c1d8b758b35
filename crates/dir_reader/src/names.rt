ghost use Rattle.std.specs.Prelude.{◌≡◌, fold, Some, IfOk, OnOk};
ghost use Rattle.std.specs.FinMap as map;
ghost use Rattle.listing_rules.specs.Names.{entries_of, entry_of, is_dir, with_dir, with_entry, with_item, with_local};
ghost use Rattle.dir_reader.specs.Gathered.{found_in, with_children};

use crate::listed_name::ListedName;
use bucket_model::PageItem;
use listing_rules::Listed;
use mp_rules::{DirEntry, Local};
use mp_types::{Text, behind, is_name};
use std::alloc::{AllocError, Global};
use std::collections::BTreeMap;

/// The names of a directory, with what each shows.
pub type Names = BTreeMap<ListedName, Listed>;

fn shows_dir(listed: Listed) -> bool
    ensures { result ≡ is_dir (Some listed) }
{
    matches!(listed, Listed::Dir)
}

// Whether the name shows a directory.
fn has_dir(names: &Names, name: &ListedName) -> bool
    ensures { result ≡ is_dir (map.get (found_in names.now) name.now) }
{
    match names.get(name) {
        Some(listed) => shows_dir(*listed),
        None => false,
    }
}

// A name shows what comes, unless it is none that can be reached or a directory has it.
fn show(names: &mut Names, name: Text, listed: Listed) -> Result<(), AllocError>
    ensures { OnOk result (found_in names.new ≡ with_entry name listed (found_in names.old)) }
{
    if !is_name(name.as_str()) {
        drop(name);
        return Ok(());
    }
    let name = ListedName::new(name);
    if has_dir(names, &name) {
        drop(name);
        return Ok(());
    }
    names.insert(name, listed)?;
    Ok(())
}

// The directory whose keys have this behind the prefix, up to their next `/`.
fn show_dir(names: &mut Names, alloc: Global, rest: &str) -> Result<(), AllocError>
    ensures { OnOk result (found_in names.new ≡ with_dir rest.now (found_in names.old)) }
{
    match rest.strip_suffix('/') {
        Some(name) => show(names, Text::copy(alloc, name)?, Listed::Dir),
        None => Ok(()),
    }
}

// What an item of a page shows in the directory of the prefix.
fn show_item(
    names: &mut Names,
    alloc: Global,
    prefix: &str,
    item: &PageItem,
) -> Result<(), AllocError>
    ensures { OnOk result (found_in names.new ≡ with_item prefix.now (found_in names.old) item.now) }
{
    match item {
        PageItem::Object { key, size, .. } => match behind(key.as_str(), prefix) {
            Some(name) => show(
                names,
                Text::copy(alloc, name)?,
                Listed::Remote { size: *size },
            ),
            None => Ok(()),
        },
        PageItem::Prefix(text) => match behind(text.as_str(), prefix) {
            Some(rest) => show_dir(names, alloc, rest),
            None => Ok(()),
        },
    }
}

/// What the items of a page show in the directory of the prefix.
pub fn show_items(
    names: &mut Names,
    alloc: Global,
    prefix: &str,
    items: &[PageItem],
) -> Result<(), AllocError>
    ensures { OnOk result (found_in names.new ≡ fold (with_item prefix.now) (found_in names.old) items.now) }
{
    for item in items {
        show_item(names, alloc, prefix, item)?;
    }
    Ok(())
}

// What is local at a name shows.
fn show_local(names: &mut Names, name: Text, local: Local) -> Result<(), AllocError>
    ensures { OnOk result (found_in names.new ≡ with_local name local (found_in names.old)) }
{
    match local {
        Local::None => Ok(()),
        Local::Dir => show(names, name, Listed::Dir),
        Local::File { size } => show(names, name, Listed::Writing { size }),
    }
}

/// What is local at each of these names shows.
pub fn show_children(names: &mut Names, children: Vec<(Text, Local)>) -> Result<(), AllocError>
    ensures { OnOk result (found_in names.new ≡ with_children children.items (found_in names.old)) }
{
    for (name, local) in children {
        show_local(names, name, local)?;
    }
    Ok(())
}

// What a name shows, as an entry.
fn entry(name: Text, listed: Listed) -> DirEntry
    ensures { result ≡ entry_of (name, listed) }
{
    match listed {
        Listed::Dir => DirEntry::Dir { name },
        Listed::Remote { size } => DirEntry::Remote { size, name },
        Listed::Writing { size } => DirEntry::Writing { size, name },
    }
}

/// The entries of the names, in their order.
pub fn entries(alloc: Global, names: Names) -> Result<Vec<DirEntry>, AllocError>
    ensures { IfOk result (λ entries. entries.items ≡ entries_of (found_in names)) }
{
    let mut entries = Vec::with_capacity(alloc, names.len())?;
    for (name, listed) in names {
        entries.push(entry(name.into_text(), listed))?;
    }
    Ok(entries)
}
