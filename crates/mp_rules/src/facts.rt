ghost use Rattle.std.specs.Prelude.{◌≡◌, [], ◌∷◌, ◌++◌, None, OnOk, OnErr};
ghost use Rattle.std.specs.List.{list_any};
ghost use Rattle.mp_rules.specs.QuestionRef.{as_question, key_in};
ghost use Rattle.mp_rules.specs.Walk.{AreDistinct, fact_in, is_question, with_known};

use mp_types::{ETag, Items, Key};
use std::alloc::{AllocError, Global};
use std::marker::Model;

/// What the bucket is asked about a path.
#[derive(Debug, Drop)]
pub enum Question {
    /// Which object stands at the key: HeadObject.
    Head(Key),
    /// Whether some key lies below this one: ListObjectsV2 of one item, with the key and a `/` as its prefix.
    Probe(Key),
}

/// A question about a key that stands in a text of someone else.
#[derive(Clone, Copy, Debug)]
pub enum QuestionRef<'a> {
    /// Which object stands at the key.
    Head(&'a str),
    /// Whether some key lies below this one.
    Probe(&'a str),
}

/// What the bucket answered to a question.
#[derive(Debug, Drop, PartialEq, Eq)]
pub enum Fact {
    /// An object of this ETag and this many bytes stands at the key.
    Found { etag: ETag, size: u64 },
    /// No object stands at the key.
    Missing,
    /// Some key lies below.
    Yes,
    /// No key lies below.
    No,
}

/// A question with its answer.
#[derive(Debug, Drop)]
pub struct Known {
    pub question: Question,
    pub fact: Fact,
}

/// What a line has learned from its own questions, in the order in which the answers came.
#[derive(Debug, Drop)]
pub struct OwnFacts {
    known: Items<Known>,
}

impl Model for OwnFacts {
    ghost use Rattle.std.specs.Prelude.{List};
    ghost use Rattle.mp_rules.specs.declared.facts.Known.{Known};
    ghost use Rattle.mp_rules.specs.Walk.{AreDistinct};

    ghost Value = { List Known };

    ghost view = { λ a. a.known };

    ghost invariant = { λ a. AreDistinct a.known };
}

impl Fact {
    /// An equal fact. Takes no memory.
    pub fn copy(&self) -> Self
        ensures { result ≡ self.now }
    {
        match self {
            Fact::Found { etag, size } => Fact::Found {
                etag: etag.copy(),
                size: *size,
            },
            Fact::Missing => Fact::Missing,
            Fact::Yes => Fact::Yes,
            Fact::No => Fact::No,
        }
    }
}

impl<'a> QuestionRef<'a> {
    /// The key that it asks about.
    pub fn key(self) -> &'a str
        ensures { result.now ≡ key_in self.entry }
    {
        match self {
            QuestionRef::Head(key) | QuestionRef::Probe(key) => key,
        }
    }
}

impl Question {
    fn lent(&self) -> QuestionRef<'_>
        ensures { as_question result ≡ self.now }
    {
        match self {
            Question::Head(key) => QuestionRef::Head(key.as_str()),
            Question::Probe(key) => QuestionRef::Probe(key.as_str()),
        }
    }

    /// Whether it asks this.
    pub fn is(&self, asked: QuestionRef<'_>) -> bool
        ensures { result ≡ is_question (as_question asked.entry) self.now }
    {
        match (asked, self) {
            (QuestionRef::Head(key), Question::Head(own)) => key == own.as_str(),
            (QuestionRef::Probe(key), Question::Probe(own)) => key == own.as_str(),
            (QuestionRef::Head(_), Question::Probe(_)) => false,
            (QuestionRef::Probe(_), Question::Head(_)) => false,
        }
    }
}

// Whether the question is among those that have their answer.
fn is_answered(known: &[Known], question: &Question) -> bool
    ensures { result ≡ list_any (λ k. is_question question.now k.question) known.now }
{
    let asked = question.lent();
    known.iter().any(|known| known.question.is(asked))
}

impl OwnFacts {
    /// No facts. Takes no memory.
    pub fn new(alloc: Global) -> Self
        ensures { result ≡ [] }
    {
        OwnFacts {
            known: Items::new(alloc),
        }
    }

    // One more fact, of a question that has no answer yet.
    fn add_new(&mut self, known: Known) -> Result<(), AllocError>
        requires { fact_in self.old known.question ≡ None }
        ensures ok { OnOk result (self.new ≡ self.old ++ known ∷ []) }
        ensures err { OnErr result (self.new ≡ self.old) }
    {
        match self.known.push(known) {
            Ok(()) => Ok(()),
            Err(_) => Err(AllocError),
        }
    }

    /// One more fact. A question that was answered before keeps its answer. An error changes nothing.
    pub fn add(&mut self, known: Known) -> Result<(), AllocError>
        ensures ok { OnOk result (self.new ≡ with_known known self.old) }
        ensures err { OnErr result (self.new ≡ self.old) }
    {
        if is_answered(self.known.as_slice(), &known.question) {
            return Ok(());
        }
        self.add_new(known)
    }

    /// The facts in the order in which they came.
    pub fn as_slice(&self) -> &[Known]
        ensures facts { result.now ≡ self.now }
        ensures distinct { AreDistinct self.now }
    {
        self.known.as_slice()
    }
}
