ghost use Rattle.std.specs.Prelude.{◌≡◌, ◌≤◌, length, Some, None, MatchOption, MatchResult, OnOk, OnErr, false, slice_get, vec_capacity};
ghost use Rattle.std.specs.List.{insert};
ghost use Rattle.mount_model.specs.State.{line_at, heard};
ghost use Rattle.mount_model.specs.Run.{is_among, AreRising};
ghost use Rattle.line_table.specs.Table.{script_of, StandsAt, AreAbove, put_in, with_follower, open_place, awaited};

use mount_model::{Phase, Request, Standing, Told};
use std::alloc::AllocError;

/// The place of the line of this number.
pub fn place_of(lines: &[Standing], number: u32) -> Option<usize>
    requires { AreRising 0 (script_of lines.now) }
    ensures { MatchOption result (line_at number lines.now ≡ None) (λ i. StandsAt number lines.now i) }
{
    match lines.binary_search_by_key(&number, |standing| standing.line.number) {
        Ok(i) => Some(i),
        Err(_) => None,
    }
}

/// The place of a number among rising numbers, or the place where it would stand.
pub fn place_among(numbers: &[u32], number: u32) -> Result<usize, usize>
    requires { AreAbove 0 numbers.now }
    ensures { MatchResult result (λ i. slice_get numbers.now i ≡ Some number) (λ i. (i ≤ length numbers.now) × (is_among number numbers.now ≡ false) × (put_in number numbers.now ≡ insert numbers.now i number)) }
{
    numbers.binary_search(&number)
}

/// Puts the number in at its place, for which there is room.
pub fn put_number(numbers: &mut Vec<u32>, number: u32)
    requires rising { AreAbove 0 numbers.old.items }
    requires room { length (put_in number numbers.old.items) ≤ vec_capacity numbers.old }
    ensures items { numbers.new.items ≡ put_in number numbers.old.items }
    ensures capacity { vec_capacity numbers.new ≡ vec_capacity numbers.old }
{
    match place_among(numbers.as_slice(), number) {
        Ok(_) => {}
        Err(i) => match numbers.insert(i, number) {
            Ok(()) => {}
            Err(_) => unreachable!(),
        },
    }
}

/// Puts the number in, if there is one.
pub fn put_follower(numbers: &mut Vec<u32>, follower: Option<u32>)
    requires rising { AreAbove 0 numbers.old.items }
    requires room { length (with_follower follower numbers.old.items) ≤ vec_capacity numbers.old }
    ensures items { numbers.new.items ≡ with_follower follower numbers.old.items }
    ensures capacity { vec_capacity numbers.new ≡ vec_capacity numbers.old }
{
    match follower {
        None => {}
        Some(number) => put_number(numbers, number),
    }
}

/// The place of the first line without a reply, which isn't above this one.
pub fn open_from(lines: &[Standing], from: usize) -> usize
    requires { from ≤ open_place lines.now }
    ensures { result ≡ open_place lines.now }
{
    let mut place = from;
    while place < lines.len() {
        match &lines[place].phase {
            Phase::Replied => place += 1,
            _ => return place,
        }
    }
    place
}

/// One more answer for the line.
pub fn hear_one(standing: &mut Standing, told: Told) -> Result<(), AllocError>
    ensures line { standing.new.line ≡ standing.old.line }
    ensures ok { OnOk result (standing.new.phase ≡ heard told standing.old.phase) }
    ensures err { OnErr result (standing.new.phase ≡ standing.old.phase) }
{
    match &mut standing.phase {
        Phase::Begun(heard) => heard.hear(told),
        _ => Ok(()),
    }
}

/// The number of an await that has begun.
pub fn awaited_number(standing: &Standing) -> Option<u32>
    ensures { result ≡ awaited standing.now }
{
    match &standing.phase {
        Phase::Begun(_) => match &standing.line.request {
            Request::Await => Some(standing.line.number),
            _ => None,
        },
        _ => None,
    }
}
