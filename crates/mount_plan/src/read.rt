ghost use Rattle.std.specs.Prelude.{◌≡◌, ◌<◌, ◌∷◌, List, None, Some, MatchOption, option_copied};
ghost use Rattle.bucket_model.specs.declared.answer.Brief.{Brief};
ghost use Rattle.mount_model.specs.declared.handle.Version.{Version};
ghost use Rattle.mount_model.specs.Conversation.{Range, range_in, range_next, read_next};
ghost use Rattle.mount_plan.specs.Meant.{MeansOne, with_last};

use crate::LinePlan;
use crate::answered::first_answer;
use crate::planned::failed;
use bucket_model::Brief;
use mount_model::{Handle, Heard, Told, Version, errno_of};
use mp_types::Errno;
use part_uploader::Uploader;

// The first place that a read asks for, and the one behind its last, both inside an object of this size.
fn places_in(offset: u64, count: u64, size: u64) -> Option<(u64, u64)>
    ensures { MatchOption result (range_in offset count size ≡ None) (λ places. (range_in offset count size ≡ Some (record { from = places.0; to = places.1 })) × (places.0 < places.1)) }
{
    if count == 0 || size <= offset {
        return None;
    }
    Some((offset, offset.saturating_add(count).min(size)))
}

fn got<'a>(answer: &Brief) -> LinePlan<'a>
    ensures { (version : Version) (range : Range) (answers : List Brief) → MeansOne result (range_next version (Some range) (answer.now ∷ answers)) }
{
    match answer {
        Brief::Bytes { length } => LinePlan::Give { count: *length },
        Brief::Changed | Brief::Missing => failed(Errno::Estale),
        _ => failed(errno_of(answer)),
    }
}

fn version_plan<'a>(
    version: &'a Version,
    offset: u64,
    count: u64,
    heard: &Heard,
    last: Option<&Told>,
) -> LinePlan<'a>
    ensures { MeansOne result (range_next version.now (range_in offset count version.now.size) (with_last (option_copied last.entry) heard.now).answers) }
{
    let Some((from, to)) = places_in(offset, count, version.size) else {
        return LinePlan::Give { count: 0 };
    };
    match first_answer(heard, last) {
        Some(answer) => got(answer),
        None => LinePlan::Get { version, from, to },
    }
}

/// What a read does next: one get of the version that its handle opened, cut at its size.
pub fn read_plan<'a>(
    handle: Option<&'a Handle<Uploader>>,
    offset: u64,
    count: u64,
    heard: &Heard,
    last: Option<&Told>,
) -> LinePlan<'a>
    ensures { MeansOne result (read_next (option_copied handle.entry) offset count (with_last (option_copied last.entry) heard.now).answers) }
{
    match handle {
        Some(Handle::Reading { version, .. }) => version_plan(version, offset, count, heard, last),
        _ => failed(Errno::Ebadf),
    }
}
