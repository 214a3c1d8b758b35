ghost use Rattle.std.specs.Prelude.{◌≡◌, ℕ, ◌<◌, ◌≤◌, ◌+◌, ◌⊎◌, [], length, IfSome, IfOk, OnSome, true, vec_len, vec_capacity};
ghost use Rattle.bucket_model.specs.Answers.{MayBeMade, brief_of, is_counted};
ghost use Rattle.fault_store.specs.Called.{IsCalled};
ghost use Rattle.fault_store.specs.Faulty.{Conveys, FailsBefore, IsHonest, IsServed, KeepsNumbers, RunsShort, Starts, first_listed, told_by, when_at};
ghost use Rattle.fault_store.specs.FaultyLaws.{position_is, honest_is_legal};

use bucket_model::{Answer, Brief, Call, HEntry, Logged, add_entry};
use std::alloc::{AllocError, Global};
use std::collections::BTreeMap;
use store_trait::Store;

/// When a listed call fails. Its caller can't tell which it was, as with a request whose answer was lost.
#[derive(Clone, Copy, Debug, PartialEq, Eq)]
pub enum When {
    /// Before it reaches the inner store: it takes no effect.
    Before,
    /// Once the inner store has answered it: it takes effect, and the answer is dropped.
    After,
}

/// A store whose listed calls fail. Each other call is its inner store's, with the same answer.
/// It keeps a log of its own, which is the history that it tells where the inner store tells one.
#[derive(Drop)]
pub struct Faulty<S> {
    inner: S,
    listed: BTreeMap<u64, When>,
    calls: u64,
    failed: u64,
    log: Vec<Logged>,
}

// When each listed call fails: of two entries for one number the first.
fn table(alloc: Global, mut faults: Vec<(u64, When)>) -> Result<BTreeMap<u64, When>, AllocError>
    ensures { IfOk result (λ listed. (number : ℕ) → when_at listed number ≡ first_listed number faults.items) }
{
    let mut listed = BTreeMap::new(alloc);
    while let Some((number, when)) = faults.pop() {
        listed.insert(number, when)?;
    }
    Ok(listed)
}

// Whether an answer has an entry.
fn is_counted(answer: &Answer) -> bool
    ensures { result ≡ is_counted (brief_of answer.now) }
{
    match answer {
        Answer::NoMemory => false,
        _ => true,
    }
}

// A call that took effect, with what its caller is told.
fn taken(call: Call, answer: Brief) -> HEntry
    ensures { result ≡ record { call = call; answer = answer; took = true } }
{
    HEntry {
        call,
        answer,
        took: true,
    }
}

impl<S: Store + Drop> Faulty<S> {
    /// A store around `inner` whose calls with the listed numbers fail. Calls are counted from 1, also those
    /// that are answered with want of memory, and the count stays at the greatest `u64` once there. Of two
    /// entries for one number the first counts. The error is want of memory.
    pub fn new(alloc: Global, inner: S, faults: Vec<(u64, When)>) -> Result<Faulty<S>, AllocError>
        requires empty { IfSome (S.history inner) (λ told. told.log ≡ []) }
        requires alone { OnSome (S.history inner) (S.is_alone inner) }
        requires sound { OnSome (S.history inner) (S.never_fails inner) }
        ensures starts { IfOk result (λ store. Starts inner faults.items store) }
        ensures history { IfOk result (λ store. ⟦<Faulty<S> as Store>⟧.history store ≡ told_by [] (S.history inner)) }
        ensures position { IfOk result (λ store. ⟦<Faulty<S> as Store>⟧.position store ≡ 0) }
        ensures faults { IfOk result (λ store. ⟦<Faulty<S> as Store>⟧.faults store ≡ S.faults inner) }
        ensures alone { IfOk result (λ store. S.is_alone inner → ⟦<Faulty<S> as Store>⟧.is_alone store) }
        ensures honest { IfOk result (λ store. S.is_honest inner → ⟦<Faulty<S> as Store>⟧.is_honest store) }
    {
        Ok(Faulty {
            listed: table(alloc, faults)?,
            inner,
            calls: 0,
            failed: 0,
            log: Vec::new(alloc),
        })
    }
}

impl<S: Store> Faulty<S> {
    // A listed call that doesn't reach the inner store.
    fn fail_before(&mut self, call: Call) -> Answer
        requires { vec_len self.old.log < vec_capacity self.old.log }
        ensures fails { FailsBefore call result self.old self.new }
        ensures keeps { KeepsNumbers self.old self.new }
        ensures grows { self.old.failed ≤ self.new.failed }
    {
        self.failed = self.failed.saturating_add(1);
        let entry = HEntry {
            call,
            answer: Brief::Fault,
            took: false,
        };
        add_entry(&mut self.log, entry, None);
        Answer::Fault
    }

    // Calls the inner store. Hiding its answer is answering a fault in its place. A page whose items can't be shared
    // with the log is lost: a listing changes nothing, so the call may still answer want of memory.
    fn reach(&mut self, call: Call, hides: bool) -> Answer
        requires room { vec_len self.old.log < vec_capacity self.old.log }
        requires may { MayBeMade call }
        ensures reaches { RunsShort result self.old self.new ⊎ Conveys (IsCalled S.position S.history S.faults S.is_alone S.never_fails S.is_honest call) call hides result self.old self.new }
        ensures keeps { KeepsNumbers self.old self.new }
        ensures grows { self.old.failed ≤ self.new.failed }
    {
        let asked = match call.share() {
            Ok(asked) => asked,
            Err(_) => {
                drop(call);
                return Answer::NoMemory;
            }
        };
        let (_, said) = self.inner.call(call);
        if !is_counted(&said) {
            drop(asked);
            return said;
        }
        if hides {
            self.failed = self.failed.saturating_add(1);
            let (hidden, bytes) = said.split();
            drop(bytes);
            let made = hidden.made();
            drop(hidden);
            add_entry(&mut self.log, taken(asked, Brief::Fault), made);
            return Answer::Fault;
        }
        match said.brief() {
            Ok(answer) => {
                let made = answer.made();
                add_entry(&mut self.log, taken(asked, answer), made);
                said
            }
            Err(_) => {
                drop(asked);
                drop(said);
                Answer::NoMemory
            }
        }
    }

    // The next call. Room for its entry is made first, so that no call of the inner store goes untold.
    fn serve(&mut self, call: Call) -> Answer
        requires { MayBeMade call }
        ensures served { IsServed (IsCalled S.position S.history S.faults S.is_alone S.never_fails S.is_honest call) call result self.old self.new }
        ensures grows { self.old.failed ≤ self.new.failed }
    {
        self.calls = self.calls.saturating_add(1);
        match self.log.reserve(1) {
            Ok(()) => {}
            Err(_) => {
                drop(call);
                return Answer::NoMemory;
            }
        }
        match self.listed.get(&self.calls).copied() {
            Some(When::Before) => self.fail_before(call),
            Some(When::After) => self.reach(call, true),
            None => self.reach(call, false),
        }
    }
}

impl<S: Store> Store for Faulty<S> {
    ghost history = { λ store. told_by store.log.items (S.history store.inner) };

    ghost position = { λ store. length store.log.items };

    ghost faults = { λ store. store.failed + S.faults store.inner };

    ghost is_alone = { λ store. S.is_alone store.inner };

    ghost never_fails = { λ _. ⊥ };

    ghost is_honest = { λ store. IsHonest (S.is_honest store.inner) (S.is_alone store.inner) (S.never_fails store.inner) (S.history store.inner) store.log.items };

    fn call(&mut self, call: Call) -> (u64, Answer) {
        let place = self.mark();
        (place, self.serve(call))
    }

    fn mark(&self) -> u64 {
        self.log.len() as u64
    }

    ghost position_is = { λ store told is. position_is store.log.items (S.history store.inner) told is };

    ghost honest_is_legal = { λ store told is honest. honest_is_legal store.log.items (S.history store.inner) told is honest.mirrors (λ t at. (S.honest_is_legal store.inner t at honest.honest).1) };
}
