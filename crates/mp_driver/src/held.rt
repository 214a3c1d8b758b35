ghost use Rattle.std.specs.Prelude.{◌≡◌, ◌<◌, Some, None, length, slice_get, vec_capacity, vec_len};
ghost use Rattle.mp_driver.specs.Held.{AreByJob, IsWith, answer_for};

use bucket_model::Answer;

/// The answer of a call that was made, which waits to be handed in.
#[derive(Drop)]
pub struct HeldAnswer {
    pub job: u64,
    pub position: u64,
    pub answer: Answer,
}

/// Puts an answer at its place by its job, for which there is room.
pub fn hold(held: &mut Vec<HeldAnswer>, got: HeldAnswer)
    requires room { vec_len held.old < vec_capacity held.old }
    requires by_job { AreByJob held.old.items }
    requires new { answer_for got.job held.old.items ≡ None }
    ensures with { IsWith got held.old.items held.new.items }
    ensures by_job { AreByJob held.new.items }
{
    let place = held.partition_point(|other| other.job < got.job);
    match held.insert(place, got) {
        Ok(()) => {}
        Err(_) => unreachable!(),
    }
}

/// Takes out the answer at this place.
pub fn let_go(held: &mut Vec<HeldAnswer>, place: usize) -> HeldAnswer
    requires within { place < length held.old.items }
    requires by_job { AreByJob held.old.items }
    ensures value { slice_get held.old.items place ≡ Some result }
    ensures with { IsWith result held.new.items held.old.items }
    ensures by_job { AreByJob held.new.items }
{
    held.remove(place)
}
