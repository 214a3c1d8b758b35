ghost use Rattle.std.specs.Prelude.{◌≡◌, MatchResult, option_copied};
ghost use Rattle.mount_model.specs.Conversation.{errno_of_path};
ghost use Rattle.mount_plan.specs.Looked.{IsFound, IsShort};
ghost use Rattle.mount_plan.specs.Meant.{with_last};
ghost use Rattle.mount_plan.specs.Seen.{view_of};

use crate::answered::{first_answer, last_fact};
use crate::planned::failed;
use crate::{LinePlan, View};
use mount_model::{Heard, Told, errno_of};
use mp_rules::Entry;
use mp_types::{Errno, FilePath, PathFault};
use superblock::{Decision, decide};

/// What stands at a path.
#[derive(Drop)]
pub enum Found<'a> {
    // It is the root.
    Root,
    // This stands at the path's key, of 1 to 1,024 bytes.
    Entry { key: &'a str, entry: Entry },
}

/// The error of a faulty path.
pub fn path_errno(why: &PathFault) -> Errno
    ensures { result ≡ errno_of_path why.now }
{
    match why {
        PathFault::Empty | PathFault::BadName(_) => Errno::Einval,
        PathFault::TooLong => Errno::Enametoolong,
        PathFault::Memory => Errno::Enomem,
    }
}

/// What stands at a path, or what the line does where that isn't told yet or can't be.
pub fn look_up<'a>(
    path: &'a FilePath,
    view: &View<'_>,
    heard: &Heard,
    last: Option<&Told>,
) -> Result<Found<'a>, LinePlan<'a>>
    ensures { let all = with_last (option_copied last.entry) heard.now in
        MatchResult result (λ found. IsFound path.now (view_of view.now) all found) (λ plan. IsShort path.now (view_of view.now) all plan) }
{
    let key = path.as_key();
    if key.is_empty() {
        return Ok(Found::Root);
    }
    if let Some(answer) = first_answer(heard, last) {
        return Err(failed(errno_of(answer)));
    }
    match decide(key, view.names, &heard.facts, last_fact(last)) {
        Decision::Ask(asked) => Err(LinePlan::Ask(asked)),
        Decision::Is(entry) => Ok(Found::Entry { key, entry }),
        Decision::Refused(errno) => Err(failed(errno)),
    }
}
