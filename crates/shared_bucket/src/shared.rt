ghost use Rattle.std.specs.Prelude.{◌≡◌, ◌≢◌, ◌≤◌, [], length, IfOk, IfErr, Some};
ghost use Rattle.mp_types.specs.Count.{HasRisen};
ghost use Rattle.bucket_model.specs.declared.answer.Brief.TheVariants.{Fault};
ghost use Rattle.bucket_model.specs.Answers.{MayBeMade, brief_of};
ghost use Rattle.store_trait.specs.Passes.{GoesOn};
ghost use Rattle.turn_lock.specs.Named.{lock_name};
ghost use Rattle.turn_lock.specs.Seats.{IsIdle, IsSame, over, seat_name};
ghost use Rattle.shared_bucket.specs.Kept.{IsKept, log_of};
ghost use Rattle.shared_bucket.specs.Known.{marks_at};
ghost use Rattle.shared_bucket.specs.Laws.{told_length};
ghost use Rattle.shared_bucket.specs.Turned.{Calls};

use crate::kept::Kept;
use crate::pass::{BucketName, Pass};
use bucket_model::{Answer, Call};
use std::alloc::{AllocFailed, Global};
use std::sync::Wait;
use store_trait::{Bucket, Store};
use turn_lock::{Seat, TurnLock};

/// A bucket that threads share: a store that is honest and alone, behind a lock.
/// Each pass tells the part of its history that it has seen.
pub struct SharedBucket<S: Store> {
    lock: TurnLock<Kept<S>>,
}

impl<S: Store> SharedBucket<S> {
    /// The store as a bucket, and its first pass. A refusal for want of memory hands the store back.
    pub fn new(alloc: Global, store: S) -> Result<(SharedBucket<S>, Pass<S>), AllocFailed<S>>
        requires { IsKept (S.history store) (S.is_honest store) (S.is_alone store) }
        ensures name { IfOk result (λ made. ⟦<SharedBucket<S> as Bucket>⟧.name_of made.1 ≡ ⟦<SharedBucket<S> as Bucket>⟧.name made.0) }
        ensures honest { IfOk result (λ made. ⟦<SharedBucket<S> as Bucket>⟧.is_honest (⟦<SharedBucket<S> as Bucket>⟧.name made.0)) }
        ensures seen { IfOk result (λ made. ⟦<SharedBucket<S> as Bucket>⟧.seen made.1 ≡ Some (log_of (S.history store))) }
        ensures own { IfOk result (λ made. ⟦<SharedBucket<S> as Bucket>⟧.own made.1 ≡ []) }
        ensures faults { IfOk result (λ made. ⟦<SharedBucket<S> as Bucket>⟧.faults made.1 ≡ 0) }
        ensures back { IfErr result (λ failed. failed.value ≡ store) }
    {
        let kept = Kept::new(store);
        let length = kept.mark();
        match TurnLock::new(alloc, kept) {
            Ok((lock, seat)) => Ok((
                SharedBucket { lock },
                Pass {
                    seat,
                    length,
                    faults: 0,
                },
            )),
            Err(failed) => {
                let AllocFailed { value } = failed;
                Err(AllocFailed {
                    value: value.into_store(),
                })
            }
        }
    }

    /// Waits for its turn, and gives the store back. Its history is what the pass has seen, and more.
    pub fn close<R: Wait>(self, rt: &R, pass: Pass<S>) -> S
        requires { ⟦<SharedBucket<S> as Bucket>⟧.name_of pass ≡ ⟦<SharedBucket<S> as Bucket>⟧.name self }
        ensures kept { IsKept (S.history result) (S.is_honest result) (S.is_alone result) }
        ensures more { GoesOn pass.seen (log_of (S.history result)) }
    {
        let SharedBucket { lock } = self;
        let Pass { seat, .. } = pass;
        lock.close(rt, seat).into_store()
    }

    // One turn of a seat: its call, and how many entries the history then has.
    fn turn<R: Wait>(&self, rt: &R, seat: &mut Seat<Kept<S>>, call: Call) -> (u64, Answer, u64)
        requires seat { seat_name seat.old ≡ lock_name self.now.lock }
        requires idle { IsIdle seat.old }
        requires ground { over seat.old ≡ Some tt }
        requires may { MayBeMade call }
        ensures same { IsSame seat.old seat.new }
        ensures idle { IsIdle seat.new }
        ensures ground { over seat.new ≡ Some tt }
        ensures calls { Calls call result.0 result.1 result.2 seat.old seat.new }
    {
        let mut held = self.lock.enter(rt, seat);
        let (position, answer) = held.value.call(call);
        let length = held.value.mark();
        self.lock.leave(seat, held);
        (position, answer, length)
    }
}

// The count of faults behind one more answer.
fn faults_after(faults: u64, answer: &Answer) -> u64
    ensures grows { faults ≤ result }
    ensures fault { brief_of answer.now ≡ Fault → HasRisen faults result }
    ensures other { brief_of answer.now ≢ Fault → result ≡ faults }
{
    match answer {
        Answer::Fault => faults.saturating_add(1),
        _ => faults,
    }
}

impl<S: Store> Bucket for SharedBucket<S> {
    type Pass = Pass<S>;

    type Name = BucketName;

    ghost name = { λ bucket. lock_name bucket.lock };

    ghost name_of = { λ pass. pass.bucket };

    ghost is_honest = { λ _. Unit {0} };

    ghost seen = { λ pass. Some pass.seen };

    ghost position = { λ pass. length pass.seen };

    ghost own = { λ pass. marks_at pass.seen pass.places };

    ghost faults = { λ pass. pass.faults };

    fn call<R: Wait>(&self, rt: &R, pass: &mut Pass<S>, call: Call) -> (u64, Answer) {
        let (position, answer, length) = self.turn(rt, &mut pass.seat, call);
        pass.length = length;
        pass.faults = faults_after(pass.faults, &answer);
        (position, answer)
    }

    fn note(&self, pass: &mut Pass<S>) -> Pass<S> {
        let length = pass.length;
        Pass {
            seat: self.lock.note(&mut pass.seat),
            length,
            faults: 0,
        }
    }

    fn meet(&self, pass: &mut Pass<S>, other: Pass<S>) {
        let Pass {
            seat,
            length,
            faults,
        } = other;
        self.lock.meet(&mut pass.seat, seat);
        pass.length = pass.length.max(length);
        pass.faults = pass.faults.saturating_add(faults);
    }

    fn mark(&self, pass: &Pass<S>) -> u64 {
        pass.length
    }

    ghost position_is = { λ pass log is. told_length pass.seen log is };
}
