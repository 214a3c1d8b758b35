use crate::telling::{tell_answer, tell_number};
use crate::words::{key, number, one, text_in, two};
use mp_rules::{Fact, Known, OwnFacts, Question, QuestionRef};
use mp_types::ETag;
use std::alloc::{AllocError, Global};

// The question about a key.
fn question(alloc: Global, kind: &str, of: &str) -> Option<Question> {
    let key = key(alloc, of)?;
    match kind {
        "head" => Some(Question::Head(key)),
        "probe" => Some(Question::Probe(key)),
        _ => {
            drop(key);
            None
        }
    }
}

fn found(size: u64) -> Option<Fact> {
    let etag = ETag::parse("v1").ok()?;
    Some(Fact::Found { etag, size })
}

fn fact(word: &str) -> Option<Fact> {
    match word {
        "yes" => Some(Fact::Yes),
        "no" => Some(Fact::No),
        "missing" => Some(Fact::Missing),
        size => found(number(size)?),
    }
}

/// A question with its answer.
pub fn known(alloc: Global, word: &str) -> Option<Known> {
    let (asked, answer) = word.rsplit_once(':')?;
    let (kind, of) = asked.split_once(':')?;
    let question = question(alloc, kind, of)?;
    match fact(answer) {
        Some(fact) => Some(Known { question, fact }),
        None => {
            drop(question);
            None
        }
    }
}

fn asks(question: &Question, kind: &str, of: &str) -> Option<bool> {
    match kind {
        "head" => Some(question.is(QuestionRef::Head(of))),
        "probe" => Some(question.is(QuestionRef::Probe(of))),
        _ => None,
    }
}

/// Whether two questions are one.
pub fn same(alloc: Global, words: &str, printed: &mut String) -> Option<()> {
    let (first, second) = two(words)?;
    let (first_kind, first_key) = first.split_once(':')?;
    let (second_kind, second_key) = second.split_once(':')?;
    let question = question(alloc, first_kind, first_key)?;
    let answer = asks(&question, second_kind, text_in(second_key));
    drop(question);
    tell_answer(printed, answer?).ok()
}

/// Tells a question about a key.
pub fn tell_question(printed: &mut String, asked: QuestionRef<'_>) -> Result<(), AllocError> {
    printed.push_str(match asked {
        QuestionRef::Head(_) => "head:",
        QuestionRef::Probe(_) => "probe:",
    })?;
    printed.push_str(asked.key())
}

fn tell_fact(printed: &mut String, fact: &Fact) -> Result<(), AllocError> {
    match fact {
        Fact::Found { size, .. } => tell_number(printed, *size),
        Fact::Missing => printed.push_str("missing"),
        Fact::Yes => printed.push_str("yes"),
        Fact::No => printed.push_str("no"),
    }
}

fn asked(question: &Question) -> QuestionRef<'_> {
    match question {
        Question::Head(key) => QuestionRef::Head(key.as_str()),
        Question::Probe(key) => QuestionRef::Probe(key.as_str()),
    }
}

fn tell_known(printed: &mut String, known: &Known) -> Result<(), AllocError> {
    printed.push_str(" ")?;
    tell_question(printed, asked(&known.question))?;
    printed.push_str(":")?;
    tell_fact(printed, &known.fact)
}

fn tell_all(printed: &mut String, facts: &[Known]) -> Result<(), AllocError> {
    printed.push_str("known")?;
    for known in facts {
        tell_known(printed, known)?;
    }
    Ok(())
}

/// One more answer to a question, and then all that is known.
pub fn know(alloc: Global, facts: &mut OwnFacts, words: &str, printed: &mut String) -> Option<()> {
    facts.add(known(alloc, one(words)?)?).ok()?;
    tell_all(printed, facts.as_slice()).ok()
}
