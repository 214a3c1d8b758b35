ghost use Rattle.std.specs.Prelude.{◌≡◌, Ok, option_copied};
ghost use Rattle.mp_types.specs.Key.{IsKeyText};
ghost use Rattle.mount_model.specs.Conversation.{unlink_at, unlink_next};
ghost use Rattle.mount_plan.specs.Gone.{is_gone};
ghost use Rattle.mount_plan.specs.Meant.{MeansOne, with_last};
ghost use Rattle.mount_plan.specs.Seen.{view_of};

use crate::answered::first_answer;
use crate::lookup::{Found, look_up};
use crate::planned::failed;
use crate::{LinePlan, View};
use bucket_model::Brief;
use mount_model::{Heard, Reply, Told};
use mp_rules::Entry;
use mp_types::{Errno, FilePath};

fn is_gone(answer: Option<&Brief>) -> bool
    ensures { result ≡ is_gone (option_copied answer.entry) }
{
    matches!(answer, Some(Brief::Gone))
}

fn entry_plan(key: &str, may_delete: bool, entry: Entry) -> LinePlan<'_>
    requires key { IsKeyText key.now }
    ensures { MeansOne result (unlink_at may_delete key.now entry) }
{
    match entry {
        Entry::RemoteDir | Entry::LocalDir => failed(Errno::Eisdir),
        Entry::LocalFile { .. } => failed(Errno::Eperm),
        Entry::File { .. } if may_delete => LinePlan::Unlink(key),
        Entry::File { .. } => failed(Errno::Eperm),
        Entry::Nothing => failed(Errno::Enoent),
    }
}

/// What an `unlink` does next: the Delete of a file, where the options allow it. Once the object is gone,
/// the walk is not done again.
pub fn unlink_plan<'a>(
    path: &'a FilePath,
    view: &View<'_>,
    heard: &Heard,
    last: Option<&Told>,
) -> LinePlan<'a>
    ensures { MeansOne result (unlink_next (view_of view.now) (Ok path.now) (with_last (option_copied last.entry) heard.now)) }
{
    if is_gone(first_answer(heard, last)) {
        return LinePlan::Reply(Reply::Success);
    }
    match look_up(path, view, heard, last) {
        Ok(Found::Root) => failed(Errno::Eisdir),
        Ok(Found::Entry { key, entry }) => entry_plan(key, view.options.allow_delete, entry),
        Err(plan) => plan,
    }
}
