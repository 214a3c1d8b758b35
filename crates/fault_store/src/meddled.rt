ghost use Rattle.std.specs.Prelude.{◌≡◌, ℕ, [], IfOk};
ghost use Rattle.std.specs.List.{AllByRecursion};
ghost use Rattle.bucket_model.specs.Answers.{MayBeMade};
ghost use Rattle.bucket_model.specs.History.{IsChange};
ghost use Rattle.fault_store.specs.Called.{IsCalled};
ghost use Rattle.fault_store.specs.Change.{calls_of};
ghost use Rattle.fault_store.specs.Meddled.{IsLeftAlone, IsServedBehind, Makes, Meddles, Starts, changes_at, changes_for};

use crate::change::Change;
use bucket_model::{Answer, Call};
use std::alloc::{AllocError, Global};
use std::collections::BTreeMap;
use store_trait::Store;

/// A store whose bucket others change meanwhile: before its calls it makes the changes that are listed for them.
/// Each change has its own entry in the inner store's history, and what it is answered with is passed over.
#[derive(Drop)]
pub struct Meddled<S> {
    inner: S,
    // The changes before each call, the last one first, so that each can be taken from the end.
    listed: BTreeMap<u64, Vec<Change>>,
    calls: u64,
}

// The changes by the call that they come before.
fn schedule(
    alloc: Global,
    mut changes: Vec<(u64, Call)>,
) -> Result<BTreeMap<u64, Vec<Change>>, AllocError>
    requires { AllByRecursion (λ change. IsChange change.1) changes.items }
    ensures { IfOk result (λ listed. (number : ℕ) → changes_at listed number ≡ changes_for number changes.items) }
{
    let mut listed = BTreeMap::new(alloc);
    while let Some((number, call)) = changes.pop() {
        let mut same = listed.remove(&number).unwrap_or(Vec::new(alloc));
        same.push(Change::from_call(call))?;
        listed.insert(number, same)?;
    }
    Ok(listed)
}

// Makes the changes, from the end.
fn make_all<S: Store>(store: &mut S, mut changes: Vec<Change>)
    ensures { Makes (IsCalled S.position S.history S.faults S.is_alone S.never_fails S.is_honest) (calls_of changes.items) store.old store.new }
{
    while let Some(change) = changes.pop() {
        let (_, answer) = store.call(change.into_call());
        drop(answer);
    }
}

impl<S: Store + Drop> Meddled<S> {
    /// A store around `inner` that makes each listed change before its own call with that number. Calls are
    /// counted from 1, and a change for call 0 is never made. Changes for one call are made in the listed
    /// order, each once, also where it fails. The error is want of memory.
    pub fn new(alloc: Global, inner: S, changes: Vec<(u64, Call)>) -> Result<Meddled<S>, AllocError>
        requires { AllByRecursion (λ change. IsChange change.1) changes.items }
        ensures starts { IfOk result (λ store. Starts inner changes.items store) }
        ensures history { IfOk result (λ store. ⟦<Meddled<S> as Store>⟧.history store ≡ S.history inner) }
        ensures position { IfOk result (λ store. ⟦<Meddled<S> as Store>⟧.position store ≡ S.position inner) }
        ensures faults { IfOk result (λ store. ⟦<Meddled<S> as Store>⟧.faults store ≡ S.faults inner) }
        ensures alone { IfOk result (λ store. S.is_alone inner → changes.items ≡ [] → ⟦<Meddled<S> as Store>⟧.is_alone store) }
        ensures never_fails { IfOk result (λ store. S.never_fails inner → ⟦<Meddled<S> as Store>⟧.never_fails store) }
        ensures honest { IfOk result (λ store. S.is_honest inner → ⟦<Meddled<S> as Store>⟧.is_honest store) }
    {
        Ok(Meddled {
            listed: schedule(alloc, changes)?,
            inner,
            calls: 0,
        })
    }
}

impl<S: Store> Meddled<S> {
    // Makes the changes that are listed for the next call.
    fn meddle(&mut self)
        ensures { Meddles (IsCalled S.position S.history S.faults S.is_alone S.never_fails S.is_honest) self.old self.new }
    {
        self.calls = self.calls.saturating_add(1);
        if let Some(changes) = self.listed.remove(&self.calls) {
            make_all(&mut self.inner, changes);
        }
    }

    // The next call, behind its changes.
    fn serve(&mut self, call: Call) -> (u64, Answer)
        requires { MayBeMade call }
        ensures { IsServedBehind (IsCalled S.position S.history S.faults S.is_alone S.never_fails S.is_honest) call result.0 result.1 self.old self.new }
    {
        self.meddle();
        self.inner.call(call)
    }
}

impl<S: Store> Store for Meddled<S> {
    ghost history = { λ store. S.history store.inner };

    ghost position = { λ store. S.position store.inner };

    ghost faults = { λ store. S.faults store.inner };

    ghost is_alone = { λ store. IsLeftAlone (S.is_alone store.inner) store.listed };

    ghost never_fails = { λ store. S.never_fails store.inner };

    ghost is_honest = { λ store. S.is_honest store.inner };

    fn call(&mut self, call: Call) -> (u64, Answer) {
        self.serve(call)
    }

    fn mark(&self) -> u64 {
        self.inner.mark()
    }

    ghost position_is = { λ store told is. S.position_is store.inner told is };

    ghost honest_is_legal = { λ store told is honest. S.honest_is_legal store.inner told is honest };
}
