ghost use Rattle.std.specs.Prelude.{Ok, option_copied};
ghost use Rattle.mp_types.specs.Key.{IsKeyText};
ghost use Rattle.mount_model.specs.Conversation.{make_at, make_next};
ghost use Rattle.mount_plan.specs.Meant.{MeansOne, with_last};
ghost use Rattle.mount_plan.specs.Seen.{view_of};

use crate::lookup::{Found, look_up};
use crate::planned::failed;
use crate::{LinePlan, View};
use mount_model::{Heard, Told};
use mp_rules::Entry;
use mp_types::{Errno, FilePath};

fn entry_plan(key: &str, entry: Entry) -> LinePlan<'_>
    requires key { IsKeyText key.now }
    ensures { MeansOne result (make_at key.now entry) }
{
    match entry {
        Entry::Nothing => LinePlan::MakeDir(key),
        Entry::RemoteDir | Entry::LocalDir | Entry::LocalFile { .. } | Entry::File { .. } => {
            failed(Errno::Eexist)
        }
    }
}

/// What a `mkdir` does next: a directory is made only where nothing stands.
pub fn make_plan<'a>(
    path: &'a FilePath,
    view: &View<'_>,
    heard: &Heard,
    last: Option<&Told>,
) -> LinePlan<'a>
    ensures { MeansOne result (make_next (view_of view.now) (Ok path.now) (with_last (option_copied last.entry) heard.now)) }
{
    match look_up(path, view, heard, last) {
        Ok(Found::Root) => failed(Errno::Eexist),
        Ok(Found::Entry { key, entry }) => entry_plan(key, entry),
        Err(plan) => plan,
    }
}
