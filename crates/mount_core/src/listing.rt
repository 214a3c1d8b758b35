ghost use Rattle.std.specs.Prelude.{◌≡◌, fold, IfOk, OnOk, option_copied};
ghost use Rattle.bucket_model.specs.declared.call.Call.TheVariants as call;
ghost use Rattle.listing_rules.specs.Names.{listing_of, prefix_of};
ghost use Rattle.listing_rules.specs.Pages.{items_of};
ghost use Rattle.mount_model.specs.Conversation.{pages_in};
ghost use Rattle.mount_model.specs.declared.event.AskedCall.TheVariants as asked;
ghost use Rattle.mount_plan.specs.Meant.{text_behind, with_last};
ghost use Rattle.mount_core.specs.Listing.{with_answer};

use bucket_model::{Brief, Call};
use dir_reader::{DirReader, page_call, prefix_text};
use local_names::Locals;
use mount_model::{AskedCall, Heard, Told};
use mp_rules::DirEntry;
use mp_types::{FilePath, Items, Text};
use std::alloc::{AllocError, Global};

// The text behind which a page is asked for: the empty one stands before all items.
fn text_behind(after: Option<&Text>) -> Result<Text, AllocError>
    ensures { IfOk result (λ text. text ≡ text_behind after.entry) }
{
    match after {
        Some(text) => text.share(),
        None => Ok(Text::new()),
    }
}

/// The call for a page of the directory at a path, behind a text or the first one, and what the record tells of it.
pub fn page_calls(
    alloc: Global,
    path: &FilePath,
    after: Option<&Text>,
    max: u32,
) -> Result<(Call, AskedCall), AllocError>
    ensures { IfOk result (λ calls. (calls.0 ≡ call.List (prefix_of path.now) (text_behind after.entry) max) × (calls.1 ≡ asked.List (prefix_of path.now) (text_behind after.entry) max)) }
{
    let prefix = prefix_text(alloc, path)?;
    let after = text_behind(after)?;
    let call = page_call(&prefix, &after, max)?;
    Ok((call, AskedCall::List { prefix, after, max }))
}

// An answer's page is read, where it brings one.
fn read_answer(reader: &mut DirReader, answer: &Brief) -> Result<(), AllocError>
    ensures { OnOk result (reader.new ≡ with_answer reader.old answer.now) }
{
    match answer {
        Brief::Page(page) => reader.page(page),
        _ => Ok(()),
    }
}

fn read_answers(reader: &mut DirReader, answers: &[Brief]) -> Result<(), AllocError>
    ensures { OnOk result (reader.new ≡ fold with_answer reader.old answers.now) }
{
    for answer in answers {
        read_answer(reader, answer)?;
    }
    Ok(())
}

// All pages are read, the last answer's behind the others.
fn read_heard(reader: &mut DirReader, heard: &Heard, last: Option<&Told>) -> Result<(), AllocError>
    ensures { OnOk result (reader.new ≡ fold with_answer reader.old (with_last (option_copied last.entry) heard.now).answers) }
{
    read_answers(reader, heard.answers.as_slice())?;
    match last {
        Some(Told::Answer(answer)) => read_answer(reader, answer),
        _ => Ok(()),
    }
}

/// The names in the directory at a path: those that the pages among what was heard show, and the
/// mount's own. It takes the time and the memory of all these names.
pub fn listing(
    alloc: Global,
    path: &FilePath,
    heard: &Heard,
    last: Option<&Told>,
    names: &Locals,
) -> Result<Items<DirEntry>, AllocError>
    ensures { IfOk result (λ entries. entries ≡ listing_of (prefix_of path.now) (items_of (pages_in (with_last (option_copied last.entry) heard.now).answers)) names.now) }
{
    let mut reader = DirReader::new(alloc, path)?;
    read_heard(&mut reader, heard, last)?;
    Ok(Items::from_vec(reader.names(names)?))
}
