ghost use Rattle.std.specs.Prelude.{Ok, option_copied};
ghost use Rattle.mp_types.specs.Key.{IsKeyText};
ghost use Rattle.mount_model.specs.Conversation.{Next, create_at, open_at, open_next, opens_if};
ghost use Rattle.mount_plan.specs.Meant.{MeansOne, with_last};
ghost use Rattle.mount_plan.specs.Opened.{opened_at};
ghost use Rattle.mount_plan.specs.Seen.{view_of};

use crate::lookup::{Found, look_up};
use crate::planned::failed;
use crate::{LinePlan, View};
use mount_model::{Heard, Told};
use mp_rules::Entry;
use mp_types::{Errno, FilePath, MAX_HANDLES};

/// What a path is opened for.
#[derive(Clone, Copy)]
pub enum Mode {
    Read,
    /// A new file, where nothing stands.
    Write,
    /// A new file, in the place of an object too, where the options allow it.
    Truncate,
}

// A handle is opened while fewer than the most are live.
fn opens_if(live: usize, opened: LinePlan<'_>) -> LinePlan<'_>
    ensures { (next : Next) → MeansOne opened.entry next → MeansOne result (opens_if live next) }
{
    if live == MAX_HANDLES {
        drop(opened);
        return failed(Errno::Emfile);
    }
    opened
}

fn reader_plan(key: &str, live: usize, entry: Entry) -> LinePlan<'_>
    requires key { IsKeyText key.now }
    ensures { MeansOne result (open_at live key.now entry) }
{
    match entry {
        Entry::RemoteDir | Entry::LocalDir => failed(Errno::Eisdir),
        Entry::LocalFile { .. } => failed(Errno::Eperm),
        Entry::File { etag, size } => opens_if(live, LinePlan::Open { key, etag, size }),
        Entry::Nothing => failed(Errno::Enoent),
    }
}

fn writer_plan(key: &str, may_overwrite: bool, live: usize, entry: Entry) -> LinePlan<'_>
    requires key { IsKeyText key.now }
    ensures { MeansOne result (create_at may_overwrite live key.now entry) }
{
    match entry {
        Entry::RemoteDir | Entry::LocalDir => failed(Errno::Eisdir),
        Entry::LocalFile { .. } => failed(Errno::Eperm),
        Entry::File { .. } if !may_overwrite => failed(Errno::Eperm),
        Entry::File { .. } | Entry::Nothing => opens_if(live, LinePlan::Create { key }),
    }
}

fn entry_plan<'a>(key: &'a str, mode: Mode, view: &View<'_>, entry: Entry) -> LinePlan<'a>
    requires key { IsKeyText key.now }
    ensures { MeansOne result (opened_at view.now.options mode view.now.live key.now entry) }
{
    match mode {
        Mode::Read => reader_plan(key, view.live, entry),
        Mode::Write => writer_plan(key, false, view.live, entry),
        Mode::Truncate => writer_plan(key, view.options.allow_overwrite, view.live, entry),
    }
}

/// What an open does next: the handle's name has to be free.
pub fn open_plan<'a>(
    path: &'a FilePath,
    mode: Mode,
    view: &View<'_>,
    heard: &Heard,
    last: Option<&Told>,
) -> LinePlan<'a>
    ensures { MeansOne result (open_next (opened_at view.now.options mode) (view_of view.now) (option_copied view.now.handle) (Ok path.now) (with_last (option_copied last.entry) heard.now)) }
{
    if view.handle.is_some() {
        return failed(Errno::Einval);
    }
    match look_up(path, view, heard, last) {
        Ok(Found::Root) => failed(Errno::Eisdir),
        Ok(Found::Entry { key, entry }) => entry_plan(key, mode, view, entry),
        Err(plan) => plan,
    }
}
