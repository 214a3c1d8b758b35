ghost use Rattle.mp_types.specs.Count.{HasRisen};
ghost use Rattle.std.specs.Prelude.{ℕ, ◌≤◌, List, Option, length, IfOk, OnErr};
ghost use Rattle.mp_io.specs.Bytes.{Reads};

/// A read or a write failed. The object that failed has counted it.
#[derive(Clone, Copy, Debug, PartialEq, Eq)]
pub struct Failed;

/// Bytes that come one piece after another.
pub trait Source {
    /// The bytes that are left, if the source tells.
    ghost left: { Self → Option (List ℕ) };

    /// How many reads have failed. The count stays at the greatest `u64` once there.
    ghost faults: { Self → ℕ };

    /// Takes the next bytes into the front of the buffer, and says how many.
    /// None into a buffer that isn't empty means that none are left.
    fn read(&mut self, buf: &mut [u8]) -> Result<usize, Failed>
        ensures fits { IfOk result (λ n. n ≤ length buf.old) }
        ensures told { Reads (left self.old) buf.old result (left self.new) buf.new }
        ensures faults_grow { faults self.old ≤ faults self.new }
        ensures failed { OnErr result (HasRisen (faults self.old) (faults self.new)) };
}
