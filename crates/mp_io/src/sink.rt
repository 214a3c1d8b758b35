ghost use Rattle.mp_types.specs.Count.{HasRisen};
ghost use Rattle.std.specs.Prelude.{ℕ, ◌<◌, ◌≤◌, List, Option, length, IfOk, OnErr};
ghost use Rattle.mp_io.specs.Bytes.{Writes};

use crate::source::Failed;

/// Where bytes go, one piece after another.
pub trait Sink {
    /// The bytes that it holds, if the sink tells.
    ghost held: { Self → Option (List ℕ) };

    /// How many writes have failed. The count stays at the greatest `u64` once there.
    ghost faults: { Self → ℕ };

    /// Appends the front of the piece, and says how many bytes: at least one of a piece that isn't empty.
    fn write(&mut self, piece: &[u8]) -> Result<usize, Failed>
        ensures fits { IfOk result (λ n. n ≤ length piece.now) }
        ensures some { IfOk result (λ n. 0 < length piece.now → 0 < n) }
        ensures told { Writes (held self.old) piece.now result (held self.new) }
        ensures faults_grow { faults self.old ≤ faults self.new }
        ensures failed { OnErr result (HasRisen (faults self.old) (faults self.new)) };
}
