ghost use Rattle.std.specs.Prelude.{◌≡◌, ◌+◌, [], length, nat_lt, Ok, option_copied};
ghost use Rattle.listing_rules.specs.Names.{prefix_of};
ghost use Rattle.mount_model.specs.declared.standing.Heard.{Heard as HeardBefore};
ghost use Rattle.mount_model.specs.Conversation.{View as Sees, asks_page, behind_answer, behind_page, list_at, list_next, max_pages};
ghost use Rattle.mount_plan.specs.Meant.{MeansOne, with_last};
ghost use Rattle.mount_plan.specs.Seen.{view_of};
ghost use Rattle.mount_plan.specs.Unkept.{unkept_errno};

use crate::answered::{last_answer, newest_answer};
use crate::lookup::{Found, look_up};
use crate::planned::failed;
use crate::{LinePlan, View};
use bucket_model::{Brief, Page};
use dir_reader::last_text_of;
use mount_model::{Heard, Told, errno_of};
use mp_rules::Entry;
use mp_types::{Errno, FilePath};

const MAX_PAGES: usize = 10_000;

// How many of the answers that came aren't kept yet.
fn unkept(last: Option<&Told>) -> usize
    ensures { (heard : HeardBefore) → length (with_last (option_copied last.entry) heard).answers ≡ length heard.answers + result }
{
    match last_answer(last) {
        Some(_) => 1,
        None => 0,
    }
}

// Whether fewer answers came than a listing has pages at most: those that are kept, and the others.
fn may_ask_on(kept: usize, unkept: usize) -> bool
    ensures { result ≡ nat_lt (kept + unkept) max_pages }
{
    kept.saturating_add(unkept) < MAX_PAGES
}

// A page came last.
fn page_plan<'a>(
    path: &'a FilePath,
    view: &View<'a>,
    heard: &'a Heard,
    last: Option<&'a Told>,
    page: &'a Page,
) -> LinePlan<'a>
    ensures { MeansOne result (behind_page (view_of view.now) (prefix_of path.now) (with_last (option_copied last.entry) heard.now).answers page.now) }
{
    if !page.more {
        return LinePlan::List {
            path,
            heard,
            last,
            names: view.names,
        };
    }
    if !may_ask_on(heard.answers.len(), unkept(last)) {
        return failed(Errno::Eoverflow);
    }
    LinePlan::Page {
        path,
        after: last_text_of(page.items.as_slice()),
        max: view.options.page,
    }
}

// This answer came last.
fn answer_plan<'a>(
    path: &'a FilePath,
    view: &View<'a>,
    heard: &'a Heard,
    last: Option<&'a Told>,
    answer: &'a Brief,
) -> LinePlan<'a>
    ensures { MeansOne result (behind_answer (view_of view.now) (prefix_of path.now) (with_last (option_copied last.entry) heard.now).answers answer.now) }
{
    match answer {
        Brief::Page(page) => page_plan(path, view, heard, last, page),
        _ => failed(errno_of(answer)),
    }
}

fn first_page(path: &FilePath, max: u32) -> LinePlan<'_>
    ensures { (view : Sees) → view.options.page ≡ max → MeansOne result (asks_page view (prefix_of path.now) []) }
{
    LinePlan::Page {
        path,
        after: None,
        max,
    }
}

fn entry_plan(path: &FilePath, max: u32, entry: Entry) -> LinePlan<'_>
    ensures { (view : Sees) → view.options.page ≡ max → MeansOne result (list_at (asks_page view (prefix_of path.now) []) entry) }
{
    match entry {
        Entry::RemoteDir | Entry::LocalDir => first_page(path, max),
        Entry::LocalFile { .. } | Entry::File { .. } => failed(Errno::Enotdir),
        Entry::Nothing => failed(Errno::Enoent),
    }
}

/// What a listing does next: once a directory is found, it asks for page after page, and then it gives the names of all.
/// It goes by its last answer alone, so that a page costs the same however many came before.
pub fn list_plan<'a>(
    path: &'a FilePath,
    view: &View<'a>,
    heard: &'a Heard,
    last: Option<&'a Told>,
) -> LinePlan<'a>
    ensures { MeansOne result (list_next (view_of view.now) (Ok path.now) (with_last (option_copied last.entry) heard.now)) }
{
    if let Some(answer) = newest_answer(heard, last) {
        return answer_plan(path, view, heard, last, answer);
    }
    match look_up(path, view, heard, last) {
        Ok(Found::Root) => first_page(path, view.options.page),
        Ok(Found::Entry { entry, .. }) => entry_plan(path, view.options.page, entry),
        Err(plan) => plan,
    }
}

/// The error of a listing that has no room for its next page, behind which there may be `more`, by what it heard before.
pub fn unkept_errno(heard: &Heard, more: bool) -> Errno
    ensures { result ≡ unkept_errno more heard.now.answers }
{
    if more && !may_ask_on(heard.answers.len(), 1) {
        return Errno::Eoverflow;
    }
    Errno::Enomem
}
