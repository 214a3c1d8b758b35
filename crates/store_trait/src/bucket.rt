ghost use Rattle.mp_types.specs.Count.{HasRisen};
ghost use Rattle.std.specs.Prelude.{◌≡◌, ℕ, ◌+◌, ◌-◌, ◌^◌, ◌<◌, ◌≤◌, max, min, true, length, List, [], Option, Some};
ghost use Rattle.bucket_model.specs.declared.answer.Brief.TheVariants.{Fault};
ghost use Rattle.bucket_model.specs.declared.history.Logged.{Logged};
ghost use Rattle.bucket_model.specs.Answers.{MayBeMade, brief_of, fits, is_counted};
ghost use Rattle.store_trait.specs.Passes.{AddsMark, AreRisingMarks, IsLegalTold, Mark, PassBrings, PassMeets, PassTells, merged_marks};

use bucket_model::{Answer, Call};
use std::sync::Wait;

/// A bucket that threads share. Each calls it through a pass of its own. Each call is one atomic step.
/// Nothing is promised of the order between passes that never met, nor that a call which waits is ever served.
pub trait Bucket {
    /// What one thread knows of the bucket.
    type Pass;

    /// What tells one bucket from another.
    type Name;

    ghost name: { Self → Self.Name };

    /// The bucket that the pass is for. It never changes.
    ghost name_of: { Self.Pass → Self.Name };

    /// What passes of this bucket tell is true: a legal history. It is a fact of the bucket, as no call changes it.
    ghost is_honest: { Self.Name → Type 0 };

    /// The part of the bucket's history that the pass has seen, if the bucket tells its history.
    ghost seen: { Self.Pass → Option (List Logged) };

    /// How many entries the pass has seen.
    ghost position: { Self.Pass → ℕ };

    /// The marks of the calls that were made through this pass, or through one that it met.
    ghost own: { Self.Pass → List Mark };

    /// How many calls have failed, of those made through this pass or one that it met.
    /// The count stays at the greatest `u64` once there.
    ghost faults: { Self.Pass → ℕ };

    /// Makes a call. The number is the position of its entry in the history.
    /// A call that answers `NoMemory` has no entry, and its number says nothing.
    fn call<R: Wait>(&self, rt: &R, pass: &mut Self::Pass, call: Call) -> (u64, Answer)
        requires of_bucket { name_of pass.old ≡ name self.now }
        requires may { MayBeMade call }
        ensures name { name_of pass.new ≡ name_of pass.old }
        ensures kind { fits call (brief_of result.1) ≡ true }
        ensures not_before { position pass.old ≤ result.0 }
        ensures counted { is_counted (brief_of result.1) ≡ true → result.0 < position pass.new }
        ensures grows { position pass.old ≤ position pass.new }
        ensures faults_grow { faults pass.old ≤ faults pass.new }
        ensures fault { brief_of result.1 ≡ Fault → HasRisen (faults pass.old) (faults pass.new) }
        ensures own { AddsMark result.0 (brief_of result.1) (own pass.old) (own pass.new) }
        ensures rising { AreRisingMarks (own pass.new) }
        ensures told { PassTells call result.0 (brief_of result.1) (seen pass.old) (seen pass.new) }
        ensures legal { is_honest (name self.now) → IsLegalTold (seen pass.new) }
        ensures slice { is_honest (name self.now) → PassBrings call result.1 (seen pass.new) };

    /// A pass for another thread. It has seen as much, and has no marks and no faults of its own.
    fn note(&self, pass: &mut Self::Pass) -> Self::Pass
        requires of_bucket { name_of pass.old ≡ name self.now }
        ensures same { pass.new ≡ pass.old }
        ensures name { name_of result ≡ name_of pass.old }
        ensures seen { seen result ≡ seen pass.old }
        ensures position { position result ≡ position pass.old }
        ensures own { own result ≡ [] }
        ensures faults { faults result ≡ 0 };

    /// Makes a pass know what another one knew too.
    fn meet(&self, pass: &mut Self::Pass, other: Self::Pass)
        requires of_bucket { name_of pass.old ≡ name self.now }
        requires other_of_bucket { name_of other ≡ name self.now }
        ensures name { name_of pass.new ≡ name_of pass.old }
        ensures position { position pass.new ≡ max (position pass.old) (position other) }
        ensures faults { faults pass.new ≡ min (faults pass.old + faults other) (2 ^ 64 - 1) }
        ensures own { own pass.new ≡ merged_marks (own pass.old) (own other) }
        ensures rising { AreRisingMarks (own pass.new) }
        ensures told { PassMeets (seen pass.old) (seen other) (seen pass.new) }
        ensures legal { is_honest (name self.now) → IsLegalTold (seen pass.new) };

    /// How many entries the pass has seen.
    fn mark(&self, pass: &Self::Pass) -> u64
        requires of_bucket { name_of pass.now ≡ name self.now }
        ensures mark { result ≡ position pass.now }
        ensures legal { is_honest (name self.now) → IsLegalTold (seen pass.now) };

    /// A told history has as many entries as the position says.
    ghost position_is: { (pass : Self.Pass) (log : List Logged) → seen pass ≡ Some log → position pass ≡ length log };
}
