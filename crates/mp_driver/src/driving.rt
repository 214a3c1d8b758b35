ghost use Rattle.std.specs.Prelude.{◌≡◌, ◌%◌, ◌<◌, ◌≤◌, [], true, IfOk, IsOk};
ghost use Rattle.std.specs.List.{AllByRecursion};
ghost use Rattle.mount_model.specs.Run.{IsRun, is_among, ready};
ghost use Rattle.mount_core.specs.Core.{state_of};
ghost use Rattle.mp_driver.specs.declared.schedule.Schedule.TheVariants.{Oldest};
ghost use Rattle.mp_driver.specs.Calls.{Calls};
ghost use Rattle.mount_model.specs.Reads.{ReadsOver};
ghost use Rattle.mount_model.specs.Tied.{IsTiedTo};
ghost use Rattle.mount_model.specs.Written.{WrittenOver};
ghost use Rattle.mp_driver.specs.Drive.{HasFewFaults, IsDriven};

use crate::held::{HeldAnswer, hold, let_go};
use crate::schedule::Schedule;
use mount_core::Core;
use mp_io::Clock;
use std::alloc::{AllocError, Global};
use store_trait::Store;

// A ready job is taken and its call is made at once. The answer is still to be handed in.
fn call_for<S: Store, C: Clock>(
    core: &mut Core,
    job: u64,
    store: &mut S,
    clock: &mut C,
) -> HeldAnswer
    requires ready { is_among job (ready (state_of core.old).jobs) ≡ true }
    requires behind { AllByRecursion (λ position. position < S.position store.old) (state_of core.old).positions }
    ensures called { Calls job (S.position store.old) (S.position store.new) (S.faults store.old) (S.faults store.new) (S.is_alone store.old) (S.history store.old) (S.history store.new) result core.old core.new }
    ensures alone { S.is_alone store.old → S.is_alone store.new }
    ensures honest { S.is_honest store.old → S.is_honest store.new }
{
    let time = clock.now();
    let from = store.mark();
    let call = core.take(job, time, from);
    let (position, answer) = store.call(call);
    HeldAnswer {
        job,
        position,
        answer,
    }
}

// Runs a core to its end by the first choice at each turn: no answer waits while another call is made.
fn drive_oldest<S: Store, C: Clock>(mut core: Core, store: &mut S, clock: &mut C) -> Core
    requires { core.steps ≡ [] }
    ensures driven { IsDriven (S.history store.new) (S.position store.old) (S.is_alone store.old) (S.is_honest store.old) (S.faults store.old) (S.faults store.new) core.options core.script result }
    ensures grows { S.position store.old ≤ S.position store.new }
    ensures faults_grow { S.faults store.old ≤ S.faults store.new }
    ensures honest { S.is_honest store.old → S.is_honest store.new }
{
    loop {
        if let Some(job) = core.ready(0) {
            let got = call_for(&mut core, job, store, clock);
            core.done(got.job, got.position, got.answer);
        } else if let Some(line) = core.startable_at(0) {
            let time = clock.now();
            core.begin(line, time);
        } else {
            return core;
        }
    }
}

// The choice that a number of a list stands for, where there are so many.
fn choice_of(number: u32, count: usize) -> usize
    ensures { 0 < count → result ≡ number % count }
{
    if count == 0 {
        return 0;
    }
    number as usize % count
}

// Runs a core to its end by the numbers of a list: each is one of the held answers, then of the ready jobs, then
// of the lines that may begin.
fn drive_listed<S: Store, C: Clock>(
    alloc: Global,
    mut core: Core,
    store: &mut S,
    clock: &mut C,
    numbers: &[u32],
) -> Result<Core, AllocError>
    requires { core.steps ≡ [] }
    ensures driven { IfOk result (λ done. IsDriven (S.history store.new) (S.position store.old) (S.is_alone store.old) (S.is_honest store.old) (S.faults store.old) (S.faults store.new) core.options core.script done) }
    ensures grows { S.position store.old ≤ S.position store.new }
    ensures faults_grow { S.faults store.old ≤ S.faults store.new }
    ensures honest { S.is_honest store.old → S.is_honest store.new }
{
    let mut numbers = numbers.iter().copied();
    let mut held = Vec::new(alloc);
    loop {
        let answers = held.len();
        let ready = core.ready_len();
        let startable = core.startable_len();
        let count = answers.saturating_add(ready).saturating_add(startable);
        let choice = choice_of(numbers.next().unwrap_or(0), count);
        if choice < answers {
            let got = let_go(&mut held, choice);
            core.done(got.job, got.position, got.answer);
        } else if let Some(job) = core.ready(choice - answers) {
            match held.reserve(1) {
                Ok(()) => {}
                Err(error) => {
                    drop(core);
                    return Err(error);
                }
            }
            let got = call_for(&mut core, job, store, clock);
            hold(&mut held, got);
        } else if let Some(line) = core.startable_at(choice - answers - ready) {
            let time = clock.now();
            core.begin(line, time);
        } else {
            return Ok(core);
        }
    }
}

/// Runs a core to its end in the order of the schedule. It always returns.
///
/// At each turn the choices are numbered from 0: first the end of each job whose call has its answer, by rising job;
/// then the take of each ready job, by rising job; then the begin of each line that may begin, by rising line.
/// A job's call is made when it is taken, and its answer waits for the job's end. The clock is read once before
/// each begin and each take.
///
/// `Oldest` takes no memory. With a list, an error is want of memory for one more waiting answer, found before its
/// job is taken.
pub fn drive<S: Store, C: Clock>(
    alloc: Global,
    core: Core,
    store: &mut S,
    clock: &mut C,
    schedule: &Schedule,
) -> Result<Core, AllocError>
    requires { core.steps ≡ [] }
    ensures options { IfOk result (λ done. done.options ≡ core.options) }
    ensures script { IfOk result (λ done. done.script ≡ core.script) }
    ensures run { IfOk result (λ done. IsRun core.options core.script done.steps) }
    ensures tied { IfOk result (λ done. IsTiedTo (S.history store.new) core.options core.script (S.position store.old) (S.is_alone store.old) done.steps) }

    // Each read gives bytes of the version that its handle opened, over the versions that the store tells at the end.
    ensures reads { IfOk result (λ done. ReadsOver (S.history store.new) core.options core.script done.steps) }

    // What was written appears whole or not at all, and is there once its close or fsync has succeeded, over the
    // history that an honest store tells at the end.
    ensures written { S.is_honest store.old → IfOk result (λ done. WrittenOver (S.history store.new) core.options core.script done.steps) }

    // The record tells at most as many faults as the store's count rose by.
    ensures faults { IfOk result (λ done. HasFewFaults (S.faults store.old) (S.faults store.new) done.steps) }

    // These hold of the store where there was no memory too.
    ensures grows { S.position store.old ≤ S.position store.new }
    ensures faults_grow { S.faults store.old ≤ S.faults store.new }
    ensures honest { S.is_honest store.old → S.is_honest store.new }

    ensures oldest { schedule.now ≡ Oldest → IsOk result }
{
    match schedule {
        Schedule::Oldest => Ok(drive_oldest(core, store, clock)),
        Schedule::List(numbers) => drive_listed(alloc, core, store, clock, numbers.as_slice()),
    }
}
