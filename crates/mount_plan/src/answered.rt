ghost use Rattle.std.specs.Prelude.{◌≡◌, option_copied, slice_get};
ghost use Rattle.mount_plan.specs.Meant.{with_last};
ghost use Rattle.mount_plan.specs.Last.{last_answer, last_fact, last_in};

use bucket_model::Brief;
use mount_model::{Heard, Told};
use mp_rules::Known;

/// The last answer, where it told a fact.
pub fn last_fact(last: Option<&Told>) -> Option<&Known>
    ensures { option_copied result ≡ last_fact (option_copied last.entry) }
{
    match last {
        Some(Told::Fact(known)) => Some(known),
        _ => None,
    }
}

/// The last answer, where it told no fact.
pub fn last_answer(last: Option<&Told>) -> Option<&Brief>
    ensures { option_copied result ≡ last_answer (option_copied last.entry) }
{
    match last {
        Some(Told::Answer(answer)) => Some(answer),
        _ => None,
    }
}

/// The last answer of all that told no fact.
pub fn newest_answer<'a>(heard: &'a Heard, last: Option<&'a Told>) -> Option<&'a Brief>
    ensures { option_copied result ≡ last_in (with_last (option_copied last.entry) heard.now).answers }
{
    match last_answer(last) {
        Some(answer) => Some(answer),
        None => heard.answers.as_slice().last(),
    }
}

/// The answer that a request goes by where it told no fact.
pub fn first_answer<'a>(heard: &'a Heard, last: Option<&'a Told>) -> Option<&'a Brief>
    ensures { option_copied result ≡ slice_get (with_last (option_copied last.entry) heard.now).answers 0 }
{
    heard.answers.as_slice().first().or(last_answer(last))
}
