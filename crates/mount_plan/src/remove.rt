ghost use Rattle.std.specs.Prelude.{Ok, option_copied};
ghost use Rattle.mp_types.specs.Key.{IsKeyText};
ghost use Rattle.mount_model.specs.Conversation.{remove_at, remove_next};
ghost use Rattle.mount_plan.specs.Meant.{MeansOne, with_last};
ghost use Rattle.mount_plan.specs.Seen.{view_of};

use crate::lookup::{Found, look_up};
use crate::planned::failed;
use crate::{LinePlan, View};
use local_names::Locals;
use mount_model::{Heard, Told};
use mp_rules::Entry;
use mp_types::{Errno, FilePath};

fn entry_plan<'a>(key: &'a str, names: &Locals, entry: Entry) -> LinePlan<'a>
    requires key { IsKeyText key.now }
    ensures { MeansOne result (remove_at names.now key.now entry) }
{
    match entry {
        Entry::RemoteDir => failed(Errno::Enotempty),
        Entry::LocalDir if names.has_below(key) => failed(Errno::Enotempty),
        Entry::LocalDir => LinePlan::RemoveDir(key),
        Entry::LocalFile { .. } | Entry::File { .. } => failed(Errno::Enotdir),
        Entry::Nothing => failed(Errno::Enoent),
    }
}

/// What a `rmdir` does next: only a local directory with nothing below it is removed.
pub fn remove_plan<'a>(
    path: &'a FilePath,
    view: &View<'_>,
    heard: &Heard,
    last: Option<&Told>,
) -> LinePlan<'a>
    ensures { MeansOne result (remove_next (view_of view.now) (Ok path.now) (with_last (option_copied last.entry) heard.now)) }
{
    match look_up(path, view, heard, last) {
        Ok(Found::Root) => failed(Errno::Eperm),
        Ok(Found::Entry { key, entry }) => entry_plan(key, view.names, entry),
        Err(plan) => plan,
    }
}
