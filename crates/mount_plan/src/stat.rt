ghost use Rattle.std.specs.Prelude.{◌≡◌, Ok, option_copied};
ghost use Rattle.mount_model.specs.Conversation.{Replies, stat_at, stat_next};
ghost use Rattle.mount_plan.specs.Meant.{MeansOne, with_last};
ghost use Rattle.mount_plan.specs.Seen.{view_of};

use crate::lookup::{Found, look_up};
use crate::planned::failed;
use crate::{LinePlan, View};
use mount_model::{Heard, Reply, Told};
use mp_rules::Entry;
use mp_types::{Errno, FilePath};

fn stat_reply(entry: Entry) -> Reply
    ensures { stat_at entry ≡ Replies result }
{
    match entry {
        Entry::RemoteDir | Entry::LocalDir => Reply::Directory,
        Entry::LocalFile { size } => Reply::Writing { size },
        Entry::File { size, .. } => Reply::File { size },
        Entry::Nothing => Reply::Failed(Errno::Enoent),
    }
}

/// What a stat does next: a directory, or a file with its size, or with its size so far where it is being written.
pub fn stat_plan<'a>(
    path: &'a FilePath,
    view: &View<'_>,
    heard: &Heard,
    last: Option<&Told>,
) -> LinePlan<'a>
    ensures { MeansOne result (stat_next (view_of view.now) (Ok path.now) (with_last (option_copied last.entry) heard.now)) }
{
    match look_up(path, view, heard, last) {
        Ok(Found::Root) => LinePlan::Reply(Reply::Directory),
        Ok(Found::Entry { entry, .. }) => LinePlan::Reply(stat_reply(entry)),
        Err(plan) => plan,
    }
}
