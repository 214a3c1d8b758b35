ghost use Rattle.mp_types.specs.Count.{HasRisen};
ghost use Rattle.std.specs.Prelude.{◌≡◌, ◌≢◌, ℕ, ◌<◌, ◌≤◌, true, length, Option, Some};
ghost use Rattle.bucket_model.specs.declared.answer.Brief.TheVariants.{Fault};
ghost use Rattle.bucket_model.specs.Answers.{MayBeMade, brief_of, fits, is_counted};
ghost use Rattle.bucket_model.specs.History.{History, IsLegalHistory, versions_of};
ghost use Rattle.store_trait.specs.Told.{BringsSlice, Tells};

use bucket_model::{Answer, Call};

/// A bucket as one client calls it. Each call is one atomic step.
pub trait Store {
    /// What the store tells of its history, if it tells.
    ghost history: { Self → Option History };

    /// How many entries stand in the history.
    ghost position: { Self → ℕ };

    /// How many calls have failed. The count stays at the greatest `u64` once there.
    ghost faults: { Self → ℕ };

    /// Each call adds its own entry to the history and no other.
    ghost is_alone: { Self → Type 0 };

    /// No call of it ever fails: a fact of some stores, which calls keep.
    ghost never_fails: { Self → Type 0 };

    /// What the store tells is true: a legal history, and the versions that it made.
    ghost is_honest: { Self → Type 0 };

    /// Makes a call. The number is the position of its entry in the history.
    /// A call that answers `NoMemory` has no entry, and its number says nothing.
    fn call(&mut self, call: Call) -> (u64, Answer)
        requires { MayBeMade call }
        ensures kind { fits call (brief_of result.1) ≡ true }
        ensures not_before { position self.old ≤ result.0 }
        ensures counted { is_counted (brief_of result.1) ≡ true → result.0 < position self.new }
        ensures grows { position self.old ≤ position self.new }
        ensures faults_grow { faults self.old ≤ faults self.new }
        ensures fault { brief_of result.1 ≡ Fault → HasRisen (faults self.old) (faults self.new) }
        ensures never { never_fails self.old → (brief_of result.1 ≢ Fault) × never_fails self.new }
        ensures told { Tells (is_alone self.old) call result.0 (brief_of result.1) (history self.old) (history self.new) }
        ensures slice { BringsSlice call result.1 (history self.new) }
        ensures alone { is_alone self.old → is_alone self.new }
        ensures honest { is_honest self.old → is_honest self.new };

    /// How many entries stand in the history.
    fn mark(&self) -> u64
        ensures { result ≡ position self.now };

    /// A told history has as many entries as the position says.
    ghost position_is: { (store : Self) (told : History) → history store ≡ Some told → position store ≡ length told.log };

    /// An honest store's history is legal, and its versions are those that the history made.
    ghost honest_is_legal: { (store : Self) (told : History) → history store ≡ Some told → is_honest store → IsLegalHistory told.log × (told.versions ≡ versions_of told.log) };
}
