ghost use Rattle.std.specs.Prelude.{◌≡◌, ◌<◌, None, length, drop, slice_get, option_copied, option_to_list, MatchOption};
ghost use Rattle.std.specs.List.{find, position};
ghost use Rattle.mp_rules.specs.QuestionRef.{as_question};
ghost use Rattle.mp_rules.specs.Walk.{AreDistinct, fact_in, is_question, with_last};

use mp_rules::{Fact, Known, QuestionRef};

fn place_in(asked: QuestionRef<'_>, own: &[Known]) -> Option<usize>
    ensures { result ≡ position (λ known. is_question (as_question asked.entry) known.question) own.now }
{
    own.iter().position(|known| known.question.is(asked))
}

// The place of a question's own fact, where it stands at this one or behind it.
fn place_from(asked: QuestionRef<'_>, own: &[Known], start: usize) -> Option<usize>
    requires { AreDistinct own.now }
    ensures { MatchOption result
        (find (λ known. is_question (as_question asked.entry) known.question) (drop start own.now) ≡ None)
        (λ place. (place < length own.now) × (find (λ known. is_question (as_question asked.entry) known.question) own.now ≡ slice_get own.now place)) }
{
    let behind = place_in(asked, own.get(start..)?)?;
    Some(start + behind)
}

// The own fact of a question. A walk mostly meets its facts in their order, so those behind the last one found come
// first.
fn known_among<'a>(asked: QuestionRef<'_>, own: &'a [Known], next: &mut usize) -> Option<&'a Known>
    requires { AreDistinct own.now }
    ensures { option_copied result ≡ find (λ known. is_question (as_question asked.entry) known.question) own.now }
{
    let place = match place_from(asked, own, *next) {
        Some(place) => place,
        None => place_from(asked, own, 0)?,
    };
    *next = place + 1;
    own.get(place)
}

fn known_last<'a>(asked: QuestionRef<'_>, last: Option<&'a Known>) -> Option<&'a Known>
    ensures { option_copied result ≡ find (λ known. is_question (as_question asked.entry) known.question) (option_to_list (option_copied last.entry)) }
{
    match last {
        Some(known) if known.question.is(asked) => Some(known),
        _ => None,
    }
}

/// The answer to a question, where it is among the own ones or is the last one. `next` is the place behind the last own
/// one found, and only makes the look-up fast.
pub fn fact_of<'a>(
    asked: QuestionRef<'_>,
    own: &'a [Known],
    last: Option<&'a Known>,
    next: &mut usize,
) -> Option<&'a Fact>
    requires { AreDistinct own.now }
    ensures { option_copied result ≡ fact_in (with_last (option_copied last.entry) own.now) (as_question asked.entry) }
{
    let known = known_among(asked, own, next).or(known_last(asked, last))?;
    Some(&known.fact)
}
