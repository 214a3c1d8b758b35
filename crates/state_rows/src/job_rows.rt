ghost use Rattle.std.specs.Prelude.{IsTrue};
ghost use Rattle.job_table.specs.LiveJobs.{IsReadyIn};
ghost use Rattle.job_table.specs.Kept.{IsBetween};

use crate::print::{say, say_maybe, say_number, say_whether, say_with};
use crate::words::{line_number, number, only};
use bucket_model::{Brief, Call};
use job_table::{Asker, Asking, Jobs, Journal, Purpose};
use mount_model::{AskedCall, Event, Item, Owner};
use mp_rules::Question;
use mp_types::Key;
use std::alloc::{AllocError, Global};
use std::marker::Model;

/// Jobs and their journal, and the job that was taken last, before anything else is asked, taken or dropped.
#[derive(Drop)]
pub struct Desk {
    jobs: Jobs,
    journal: Journal,
    taken: Option<u64>,
}

impl Model for Desk {
    ghost use Rattle.std.specs.Prelude.{ℕ, IfSome};
    ghost use Rattle.mount_model.specs.Step.{HasStep};
    ghost use Rattle.job_table.specs.LiveJobs.{IsOutIn};
    ghost use Rattle.job_table.specs.Kept.{IsBetween};

    ghost Value = { ℕ };

    ghost view = { λ a. a.jobs.count };

    ghost invariant = { λ a. HasStep a.journal.steps × IsBetween 0 a.jobs.held a.jobs.count × IfSome a.taken (λ job. IsOutIn job a.jobs.held) };
}

// Whether the job may be taken.
fn is_ready(jobs: &Jobs, job: u64) -> bool
    requires { IsBetween 0 jobs.now.held jobs.now.count }
    ensures { IsTrue result → IsReadyIn job jobs.now.held }
{
    for place in 0..jobs.ready_len() {
        match jobs.ready(place) {
            Some(number) => {
                if number == job {
                    return true;
                }
            }
            None => return false,
        }
    }
    false
}

impl Desk {
    /// No jobs, in a step that line 7 has begun.
    pub fn new(alloc: Global) -> Result<Self, AllocError> {
        let mut journal = Journal::new(alloc, &[])?;
        match journal.make_room(1) {
            Ok(()) => {}
            Err(error) => {
                drop(journal);
                return Err(error);
            }
        }
        journal.event(Event::Begin { line: 7, time: 0 });
        Ok(Desk {
            jobs: Jobs::new(alloc),
            journal,
            taken: None,
        })
    }

    fn ask(&mut self, owed: usize, asking: Asking) -> Option<u64> {
        self.taken = None;
        match self.jobs.ask(&mut self.journal, owed, asking) {
            Ok(job) => Some(job),
            Err(_) => None,
        }
    }

    // Takes the job, if it is ready.
    fn take(&mut self, job: u64) -> Option<Call> {
        if !is_ready(&self.jobs, job) {
            return None;
        }
        match self.journal.make_room(1) {
            Ok(()) => {}
            Err(_) => return None,
        }
        let call = self.jobs.take(&mut self.journal, job, 1, 0);
        self.taken = Some(job);
        Some(call)
    }

    // Drops the first ready job of the writer.
    fn drop_first(&mut self, line: u32) -> Option<u64> {
        let job = match self.jobs.ready_of_writer(line) {
            Some(job) => job,
            None => return None,
        };
        match self.journal.make_room(1) {
            Ok(()) => {}
            Err(_) => return None,
        }
        self.taken = None;
        self.jobs.drop_job(&mut self.journal, job);
        Some(job)
    }

    // Ends the job that was taken.
    fn done(&mut self, answer: Brief) -> Option<Asker> {
        let job = match self.taken {
            Some(job) => job,
            None => {
                drop(answer);
                return None;
            }
        };
        match self.journal.make_room(1) {
            Ok(()) => {}
            Err(_) => {
                drop(answer);
                return None;
            }
        }
        self.taken = None;
        Some(self.jobs.done(&mut self.journal, job, 0, answer))
    }
}

fn head(alloc: Global, line: u32, key: &str) -> Option<Asking> {
    let asked = Key::parse(alloc, key).ok()?;
    let called = asked.share().ok()?;
    let told = asked.share().ok()?;
    Some(Asking {
        owner: Owner::Line(line),
        line,
        call: Call::Head { key: called },
        asked: AskedCall::Head { key: told },
        purpose: Purpose::Question(Question::Head(asked)),
    })
}

// The end of an upload.
fn complete(line: u32) -> Asking {
    Asking {
        owner: Owner::Writer(line),
        line,
        call: Call::Complete {
            upload: 0,
            parts: 1,
        },
        asked: AskedCall::Complete {
            upload: 0,
            parts: 1,
        },
        purpose: Purpose::Complete,
    }
}

fn asking(alloc: Global, line: u32, words: &[&str]) -> Option<Asking> {
    match words {
        ["head", key] => head(alloc, line, *key),
        ["complete"] => Some(complete(line)),
        _ => None,
    }
}

fn ask(alloc: Global, desk: &mut Desk, arguments: &[&str], printed: &mut Vec<u8>) -> Option<()> {
    let [owed, line, words @ ..] = arguments else {
        return None;
    };
    let owed = owed.parse::<usize>().ok()?;
    let asking = asking(alloc, line_number(*line)?, words)?;
    match desk.ask(owed, asking) {
        Some(job) => say_number(printed, job),
        None => say(printed, "refused"),
    }
}

fn say_call(printed: &mut Vec<u8>, call: &Call) -> Option<()> {
    match call {
        Call::Head { key } => {
            say(printed, "head ")?;
            say(printed, key.as_str())
        }
        Call::Complete { upload, parts } => {
            say_with(printed, "complete ", *upload)?;
            say_with(printed, " ", u64::from(*parts))
        }
        _ => say(printed, "another call"),
    }
}

fn take(desk: &mut Desk, arguments: &[&str], printed: &mut Vec<u8>) -> Option<()> {
    let call = desk.take(number(only(arguments)?)?)?;
    let said = say_call(printed, &call);
    drop(call);
    said
}

fn drop_one(desk: &mut Desk, arguments: &[&str], printed: &mut Vec<u8>) -> Option<()> {
    let job = desk.drop_first(line_number(only(arguments)?)?);
    say_maybe(printed, job)
}

fn say_owner(printed: &mut Vec<u8>, owner: Owner) -> Option<()> {
    match owner {
        Owner::Line(line) => say_with(printed, "line ", u64::from(line)),
        Owner::Stream(line) => say_with(printed, "stream ", u64::from(line)),
        Owner::Writer(line) => say_with(printed, "writer ", u64::from(line)),
    }
}

fn say_purpose(printed: &mut Vec<u8>, purpose: &Purpose) -> Option<()> {
    match purpose {
        Purpose::Question(Question::Head(key)) => {
            say(printed, "head ")?;
            say(printed, key.as_str())
        }
        Purpose::Complete => say(printed, "complete"),
        _ => say(printed, "another purpose"),
    }
}

fn say_asker(printed: &mut Vec<u8>, asker: &Asker) -> Option<()> {
    say_owner(printed, asker.owner)?;
    say_with(printed, " of line ", u64::from(asker.line))?;
    say(printed, " ")?;
    say_purpose(printed, &asker.purpose)
}

fn answer_of(word: &str) -> Option<Brief> {
    match word {
        "missing" => Some(Brief::Missing),
        "stored" => Some(Brief::Stored),
        _ => None,
    }
}

fn done(desk: &mut Desk, arguments: &[&str], printed: &mut Vec<u8>) -> Option<()> {
    let answer = answer_of(only(arguments)?)?;
    let asker = desk.done(answer)?;
    let said = say_asker(printed, &asker);
    drop(asker);
    said
}

// The jobs that may be taken.
fn ready(jobs: &Jobs, printed: &mut Vec<u8>) -> Option<()> {
    say(printed, "these")?;
    for place in 0..jobs.ready_len() {
        say_with(printed, " ", jobs.ready(place)?)?;
    }
    Some(())
}

fn ready_of(jobs: &Jobs, arguments: &[&str], printed: &mut Vec<u8>) -> Option<()> {
    say_maybe(
        printed,
        jobs.ready_of_writer(line_number(only(arguments)?)?),
    )
}

fn say_last(printed: &mut Vec<u8>, items: &[Item]) -> Option<()> {
    match items.last() {
        None => say(printed, "none"),
        Some(Item::Event(Event::Begin { line, .. })) => {
            say_with(printed, "begin ", u64::from(*line))
        }
        Some(Item::Event(Event::Take { job, .. })) => say_with(printed, "take ", *job),
        Some(Item::Event(Event::Done { job, .. })) => say_with(printed, "done ", *job),
        Some(Item::Drop(job)) => say_with(printed, "drop ", *job),
        Some(Item::Ask(ask)) => say_with(printed, "ask ", ask.job),
        Some(Item::Reply(answered)) => say_with(printed, "reply ", u64::from(answered.line)),
    }
}

/// Plays a call of the jobs.
pub fn play_jobs(
    alloc: Global,
    desk: &mut Desk,
    verb: &str,
    arguments: &[&str],
    printed: &mut Vec<u8>,
) -> Option<()> {
    match verb {
        "ask" => ask(alloc, desk, arguments, printed),
        "take" => take(desk, arguments, printed),
        "drop" => drop_one(desk, arguments, printed),
        "done" => done(desk, arguments, printed),
        "ready" if arguments.is_empty() => ready(&desk.jobs, printed),
        "ready_count" if arguments.is_empty() => say_number(printed, desk.jobs.ready_len() as u64),
        "ready_of" => ready_of(&desk.jobs, arguments, printed),
        "empty" if arguments.is_empty() => say_whether(printed, desk.jobs.is_empty()),
        "last" if arguments.is_empty() => say_last(printed, desk.journal.record().items()),
        _ => None,
    }
}
