ghost use Rattle.std.specs.List.{AllByRecursion};
ghost use Rattle.bucket_model.specs.Answers.{MayBeMade};
ghost use Rattle.bucket_model.specs.History.{IsChange};

use crate::answers::{print_answer, print_number, print_text};
use crate::calls::{call_of, change_of};
use crate::values::print_value;
use crate::words::{number, words_of};
use bucket_model::{Answer, Brief, Call};
use bytes::Bytes;
use fault_store::{Faulty, Meddled, When};
use mem_store::MemStore;
use std::alloc::{AllocError, Global};
use std::mem;
use store_trait::Store;

// A bucket in memory, alone or inside the stores for tests.
#[derive(Drop)]
enum Bucket {
    Alone(MemStore),
    Inside(Meddled<Faulty<MemStore>>),
}

impl Bucket {
    fn call(&mut self, call: Call) -> (u64, Answer)
        requires { MayBeMade call }
    {
        match self {
            Bucket::Alone(store) => store.call(call),
            Bucket::Inside(store) => store.call(call),
        }
    }

    fn mark(&self) -> u64 {
        match self {
            Bucket::Alone(store) => store.mark(),
            Bucket::Inside(store) => store.mark(),
        }
    }
}

/// The bucket of a case, and the bytes that the last get brought.
#[derive(Drop)]
pub struct Bench {
    bucket: Bucket,
    brought: Bytes,
}

impl Bench {
    /// A bench with an empty bucket.
    pub fn new(alloc: Global) -> Result<Bench, AllocError> {
        Ok(Bench {
            bucket: Bucket::Alone(MemStore::new(alloc)?),
            brought: Bytes::new(),
        })
    }
}

// Adds what these words list: a call that fails, or a change by others.
fn add_listed(
    alloc: Global,
    words: &[&str],
    faults: &mut Vec<(u64, When)>,
    changes: &mut Vec<(u64, Call)>,
) -> Option<()>
    requires { AllByRecursion (λ change. IsChange change.1) changes.old.items }
    ensures { AllByRecursion (λ change. IsChange change.1) changes.new.items }
{
    let [call, what, arguments @ ..] = words else {
        return None;
    };
    let call = number(*call)?;
    match *what {
        "before" if arguments.is_empty() => faults.push((call, When::Before)).ok(),
        "after" if arguments.is_empty() => faults.push((call, When::After)).ok(),
        verb => {
            let change = change_of(alloc, verb, arguments)?;
            changes.push((call, change)).ok()
        }
    }
}

fn add_word(
    alloc: Global,
    word: &str,
    faults: &mut Vec<(u64, When)>,
    changes: &mut Vec<(u64, Call)>,
) -> Option<()>
    requires { AllByRecursion (λ change. IsChange change.1) changes.old.items }
    ensures { AllByRecursion (λ change. IsChange change.1) changes.new.items }
{
    let words = words_of(alloc, word, ':').ok()?;
    let added = add_listed(alloc, words.as_slice(), faults, changes);
    drop(words);
    added
}

fn add_all(
    alloc: Global,
    words: &[&str],
    faults: &mut Vec<(u64, When)>,
    changes: &mut Vec<(u64, Call)>,
) -> Option<()>
    requires { AllByRecursion (λ change. IsChange change.1) changes.old.items }
    ensures { AllByRecursion (λ change. IsChange change.1) changes.new.items }
{
    for word in words {
        add_word(alloc, *word, faults, changes)?;
    }
    Some(())
}

// The bucket of a case with this much listed.
fn inside(
    alloc: Global,
    faults: Vec<(u64, When)>,
    changes: Vec<(u64, Call)>,
) -> Result<Bucket, AllocError>
    requires { AllByRecursion (λ change. IsChange change.1) changes.items }
{
    let faulty = match Faulty::new(alloc, MemStore::new(alloc)?, faults) {
        Ok(faulty) => faulty,
        Err(error) => {
            drop(changes);
            return Err(error);
        }
    };
    Ok(Bucket::Inside(Meddled::new(alloc, faulty, changes)?))
}

// The bucket of a case with these words behind its name.
fn bucket_of(alloc: Global, words: &[&str]) -> Option<Bucket> {
    if words.is_empty() {
        return Some(Bucket::Alone(MemStore::new(alloc).ok()?));
    }
    let mut faults = Vec::new(alloc);
    let mut changes = Vec::new(alloc);
    match add_all(alloc, words, &mut faults, &mut changes) {
        Some(()) => inside(alloc, faults, changes).ok(),
        None => {
            drop(faults);
            drop(changes);
            None
        }
    }
}

fn begin(alloc: Global, bench: &mut Bench, words: &[&str]) -> Option<()> {
    let bucket = bucket_of(alloc, words)?;
    drop(mem::replace(&mut bench.bucket, bucket));
    Some(())
}

// Makes the call, and prints its answer.
fn ask(bench: &mut Bench, call: Call, printed: &mut Vec<u8>) -> Result<(), AllocError>
    requires { MayBeMade call }
{
    let (place, answer) = bench.bucket.call(call);
    let (brief, bytes) = answer.split();
    match &brief {
        Brief::Bytes { .. } => bench.brought = bytes,
        _ => drop(bytes),
    }
    let done = print_answer(printed, place, &brief, bench.brought.as_slice());
    drop(brief);
    done
}

fn print_unread(printed: &mut Vec<u8>, line: &str) -> Result<(), AllocError> {
    printed.extend_from_slice(b"? ")?;
    printed.extend_from_slice(line.as_bytes())
}

// Plays a line of these words.
fn play_words(
    alloc: Global,
    bench: &mut Bench,
    line: &str,
    words: &[&str],
    printed: &mut Vec<u8>,
) -> Result<(), AllocError> {
    match words {
        ["=", _, listed @ ..] => match begin(alloc, bench, listed) {
            Some(()) => printed.extend_from_slice(line.as_bytes()),
            None => print_unread(printed, line),
        },
        ["mark"] => print_number(printed, bench.bucket.mark()),
        ["again"] => print_text(printed, bench.brought.as_slice()),
        [verb, arguments @ ..] => match call_of(alloc, *verb, arguments) {
            Some(call) => ask(bench, call, printed),
            None => match print_value(alloc, *verb, arguments, printed) {
                Some(done) => done,
                None => print_unread(printed, line),
            },
        },
        [] => Ok(()),
    }
}

/// Plays a line of the table, and prints one.
pub fn play(
    alloc: Global,
    bench: &mut Bench,
    line: &str,
    printed: &mut Vec<u8>,
) -> Result<(), AllocError> {
    if line.is_empty() || line.as_bytes().starts_with(b"#") {
        printed.extend_from_slice(line.as_bytes())?;
    } else {
        let words = words_of(alloc, line, ' ')?;
        let played = play_words(alloc, bench, line, words.as_slice(), printed);
        drop(words);
        played?;
    }
    printed.extend_from_slice(b"\n")
}
