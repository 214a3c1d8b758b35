ghost use Rattle.std.specs.Prelude.{◌≡◌, ◌+◌, ◌^◌, ◌<◌, ◌≤◌, ◌↔◌, ◌∷◌, [], ◌++◌, Some, IfSome, IfOk, OnOk, OnErr, IsTrue, length, slice_get};
ghost use Rattle.mount_model.specs.declared.event.Event.TheVariants.{Take, Done};
ghost use Rattle.mount_model.specs.Step.{step_of, with_drop, with_ask, change_last, HasStep};
ghost use Rattle.job_table.specs.LiveJobs.{Held, IsReadyIn, IsOutIn, held_at, with_taken, without, ready_numbers, ready_of_writer};

use crate::Purpose;
use crate::journal::Journal;
use crate::ready::ReadyJobs;
use bucket_model::{Brief, Call};
use mount_model::{Ask, AskedCall, Event, Owner};
use std::alloc::{AllocError, Global};
use std::collections::BTreeMap;
use std::marker::Model;

// A job's call is there until it is taken.
#[derive(Drop)]
struct Live {
    owner: Owner,
    line: u32,
    call: Option<Call>,
    purpose: Purpose,
}

/// What a turn asks for: a call, how the record tells it, and what it is for; whose job it is, and the line whose turn
/// asks for it, or which opened its writer.
#[derive(Debug, Drop)]
pub struct Asking {
    pub owner: Owner,
    pub line: u32,
    pub call: Call,
    pub asked: AskedCall,
    pub purpose: Purpose,
}

/// Whose job it was, the line whose turn asked for it, or which opened its writer, and what its call was for.
#[derive(Debug, Drop)]
pub struct Asker {
    pub owner: Owner,
    pub line: u32,
    pub purpose: Purpose,
}

/// The jobs that are ready or out, by number. A job's number is how many were asked before it, and one.
#[derive(Drop)]
pub struct Jobs {
    live: BTreeMap<u64, Live>,
    ready: ReadyJobs,
    count: u64,
}

impl Model for Jobs {
    ghost use Rattle.job_table.specs.LiveJobs.{LiveJobs};

    ghost Value = { LiveJobs };

    ghost use Rattle.job_table.specs.Kept.{held_in, IsKept};

    ghost view = { λ a. record { count = a.count; held = held_in a.live.entries } };

    ghost invariant = { λ a. IsKept a.live.entries a.ready a.count };
}

impl Jobs {
    /// No jobs. Takes no memory.
    pub fn new(alloc: Global) -> Jobs
        ensures count { result.count ≡ 0 }
        ensures held { result.held ≡ [] }
    {
        Jobs {
            live: BTreeMap::new(alloc),
            ready: ReadyJobs::new(alloc),
            count: 0,
        }
    }

    // One more job, which is ready, and its number. An error drops the call and its purpose.
    fn add(
        &mut self,
        owner: Owner,
        line: u32,
        call: Call,
        purpose: Purpose,
    ) -> Result<u64, AllocError>
        ensures number { IfOk result (λ number. number ≡ self.old.count + 1) }
        ensures ok { OnOk result (self.new ≡ record { count = self.old.count + 1; held = self.old.held ++ record { number = self.old.count + 1; owner = owner; line = line; call = Some call; purpose = purpose } ∷ [] }) }
        ensures err { OnErr result (self.new ≡ self.old) }
    {
        let number = match self.count.checked_add(1) {
            Some(number) => number,
            None => {
                drop(call);
                drop(purpose);
                return Err(AllocError);
            }
        };
        match self.ready.insert(owner, number) {
            Ok(()) => {}
            Err(error) => {
                drop(call);
                drop(purpose);
                return Err(error);
            }
        }
        let live = Live {
            owner,
            line,
            call: Some(call),
            purpose,
        };
        match self.live.insert(number, live) {
            Ok(replaced) => drop(replaced),
            Err(refused) => {
                drop(refused);
                self.ready.remove(owner, number);
                return Err(AllocError);
            }
        }
        self.count = number;
        Ok(number)
    }

    /// One more job, which is ready, and its number. Room for the entries of its ask, its take and its end is made
    /// here, beside so much that is owed already. An error, which is want of memory or of numbers, changes nothing
    /// that is seen.
    pub fn ask(
        &mut self,
        journal: &mut Journal,
        owed: usize,
        asking: Asking,
    ) -> Result<u64, AllocError>
        requires { HasStep journal.old.steps }
        ensures number { IfOk result (λ number. number ≡ self.old.count + 1) }
        ensures ok { OnOk result (self.new ≡ record { count = self.old.count + 1; held = self.old.held ++ record { number = self.old.count + 1; owner = asking.owner; line = asking.line; call = Some asking.call; purpose = asking.purpose } ∷ [] }) }
        ensures steps { OnOk result (journal.new.steps ≡ change_last (with_ask (record { job = self.old.count + 1; owner = asking.owner; call = asking.asked })) journal.old.steps) }
        ensures room { OnOk result (owed + 2 ≤ journal.new.room) }
        ensures fits { OnOk result (owed + 2 < 2 ^ 64) }
        ensures err { OnErr result (self.new ≡ self.old) }
        ensures unasked { OnErr result (journal.new.steps ≡ journal.old.steps) }
        ensures kept { OnErr result (journal.old.room ≤ journal.new.room) }
        ensures known { journal.new.known ≡ journal.old.known }
    {
        let Some(items) = owed.checked_add(3) else {
            drop(asking);
            return Err(AllocError);
        };
        match journal.make_room(items) {
            Ok(()) => {}
            Err(error) => {
                drop(asking);
                return Err(error);
            }
        }
        let Asking {
            owner,
            line,
            call,
            asked,
            purpose,
        } = asking;
        let job = match self.add(owner, line, call, purpose) {
            Ok(job) => job,
            Err(error) => {
                drop(asked);
                return Err(error);
            }
        };
        journal.ask(Ask {
            job,
            owner,
            call: asked,
        });
        Ok(job)
    }

    /// The call of a ready job, which is out from now on. Takes no memory.
    pub fn take(&mut self, journal: &mut Journal, job: u64, time: u64, from: u64) -> Call
        requires ready { IsReadyIn job self.old.held }
        requires room { 0 < journal.old.room }
        ensures call { (h : Held) → held_at job self.old.held ≡ Some h → h.call ≡ Some result }
        ensures count { self.new.count ≡ self.old.count }
        ensures held { self.new.held ≡ with_taken job self.old.held }
        ensures steps { journal.new.steps ≡ journal.old.steps ++ step_of (Take job time from) ∷ [] }
        ensures room { journal.new.room + 1 ≡ journal.old.room }
        ensures known { journal.new.known ≡ journal.old.known }
    {
        journal.event(Event::Take { job, time, from });
        let live = match self.live.get_mut(&job) {
            Some(live) => live,
            None => unreachable!(),
        };
        let call = match live.call.take() {
            Some(call) => call,
            None => unreachable!(),
        };
        self.ready.remove(live.owner, job);
        call
    }

    /// A ready job is dropped: it is never taken, and gone from now on. Takes no memory.
    pub fn drop_job(&mut self, journal: &mut Journal, job: u64)
        requires ready { IsReadyIn job self.old.held }
        requires room { 0 < journal.old.room }
        requires step { HasStep journal.old.steps }
        ensures count { self.new.count ≡ self.old.count }
        ensures held { self.new.held ≡ without job self.old.held }
        ensures steps { journal.new.steps ≡ change_last (with_drop job) journal.old.steps }
        ensures room { journal.new.room + 1 ≡ journal.old.room }
        ensures known { journal.new.known ≡ journal.old.known }
    {
        journal.drop_job(job);
        let owner = match self.live.remove(&job) {
            Some(live) => {
                let owner = live.owner;
                drop(live);
                owner
            }
            None => unreachable!(),
        };
        self.ready.remove(owner, job);
    }

    /// Who asked for this job, which is out, and is gone from now on. Takes no memory.
    pub fn done(&mut self, journal: &mut Journal, job: u64, position: u64, answer: Brief) -> Asker
        requires out { IsOutIn job self.old.held }
        requires room { 0 < journal.old.room }
        ensures asker { (h : Held) → held_at job self.old.held ≡ Some h → (result.owner ≡ h.owner) × (result.line ≡ h.line) × (result.purpose ≡ h.purpose) }
        ensures count { self.new.count ≡ self.old.count }
        ensures held { self.new.held ≡ without job self.old.held }
        ensures steps { journal.new.steps ≡ journal.old.steps ++ step_of (Done job position answer) ∷ [] }
        ensures room { journal.new.room + 1 ≡ journal.old.room }
        ensures known { journal.new.known ≡ journal.old.known }
    {
        journal.event(Event::Done {
            job,
            position,
            answer,
        });
        match self.live.remove(&job) {
            Some(live) => {
                drop(live.call);
                Asker {
                    owner: live.owner,
                    line: live.line,
                    purpose: live.purpose,
                }
            }
            None => unreachable!(),
        }
    }

    /// The number of the ready job at this place, from 0 in the order of asking.
    pub fn ready(&self, place: usize) -> Option<u64>
        ensures { result ≡ slice_get (ready_numbers self.now.held) place }
    {
        self.ready.at(place)
    }

    /// How many jobs are ready.
    pub fn ready_len(&self) -> usize
        ensures { result ≡ length (ready_numbers self.now.held) }
    {
        self.ready.len()
    }

    /// The first ready job of the writer that this line opened, at the cost of a logarithm of how many are ready.
    pub fn ready_of_writer(&self, line: u32) -> Option<u64>
        ensures first { result ≡ slice_get (ready_of_writer line self.now.held) 0 }
        ensures ready { IfSome result (λ job. IsReadyIn job self.now.held) }
    {
        self.ready.first_of_writer(line)
    }

    /// Whether no job is ready or out.
    pub fn is_empty(&self) -> bool
        ensures { IsTrue result ↔ (self.now.held ≡ []) }
    {
        self.live.is_empty()
    }
}
