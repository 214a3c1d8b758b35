ghost use Rattle.std.specs.Prelude.{◌≡◌, OnOk, OnErr};
ghost use Rattle.mount_model.specs.Conversation.{errno_of};
ghost use Rattle.mount_model.specs.Heard.{nothing_heard, with_told, told_by};

use crate::Line;
use bucket_model::Brief;
use mp_rules::{Fact, Known, OwnFacts, Question};
use mp_types::{Errno, Items};
use std::alloc::{AllocError, Global};

/// What a line has heard of its own calls.
#[derive(Debug, Drop)]
pub struct Heard {
    /// The answers to its questions.
    pub facts: OwnFacts,
    /// All other answers: those of calls that are no questions, and of questions that failed.
    pub answers: Items<Brief>,
}

/// What one answer tells a line.
#[derive(Debug, Drop)]
pub enum Told {
    Fact(Known),
    Answer(Brief),
}

/// How far a line has come.
#[derive(Debug, Drop)]
pub enum Phase {
    /// It hasn't begun.
    Waiting,
    /// It has begun, and heard this of its own calls.
    Begun(Heard),
    /// It has its reply.
    Replied,
}

/// A line and how far it has come.
#[derive(Debug, Drop)]
pub struct Standing {
    pub line: Line,
    pub phase: Phase,
}

impl Heard {
    /// Nothing. Takes no memory.
    pub fn new(alloc: Global) -> Self
        ensures { result ≡ nothing_heard }
    {
        Heard {
            facts: OwnFacts::new(alloc),
            answers: Items::new(alloc),
        }
    }

    /// One more answer. An error changes nothing.
    pub fn hear(&mut self, told: Told) -> Result<(), AllocError>
        ensures ok { OnOk result (self.new ≡ with_told told self.old) }
        ensures err { OnErr result (self.new ≡ self.old) }
    {
        match told {
            Told::Fact(known) => self.facts.add(known),
            Told::Answer(answer) => match self.answers.push(answer) {
                Ok(()) => Ok(()),
                Err(_) => Err(AllocError),
            },
        }
    }
}

// The fact that an answer to a question tells.
fn fact_of(answer: &Brief) -> Option<Fact>
    ensures { result ≡ Rattle.mount_model.specs.Heard.fact_of answer.now }
{
    match answer {
        Brief::Found { etag, size } => Some(Fact::Found {
            etag: etag.copy(),
            size: *size,
        }),
        Brief::Missing => Some(Fact::Missing),
        Brief::Yes => Some(Fact::Yes),
        Brief::No => Some(Fact::No),
        Brief::Page(_)
        | Brief::Bytes { .. }
        | Brief::Changed
        | Brief::Gone
        | Brief::Made(_)
        | Brief::Upload(_)
        | Brief::Stored
        | Brief::NoUpload
        | Brief::Fault
        | Brief::NoMemory => None,
    }
}

/// What the answer to a call tells, where this is the question that the call asks, if it asks one. Takes no memory.
pub fn told_by(question: Option<Question>, answer: Brief) -> Told
    ensures { result ≡ told_by question answer }
{
    match question {
        None => Told::Answer(answer),
        Some(question) => match fact_of(&answer) {
            Some(fact) => Told::Fact(Known { question, fact }),
            None => Told::Answer(answer),
        },
    }
}

/// The error of a call that failed, or whose answer doesn't fit it.
pub fn errno_of(answer: &Brief) -> Errno
    ensures { result ≡ errno_of answer.now }
{
    match answer {
        Brief::NoMemory => Errno::Enomem,
        _ => Errno::Eio,
    }
}
