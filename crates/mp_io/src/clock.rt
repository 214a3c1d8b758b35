ghost use Rattle.std.specs.Prelude.{ℕ, List, Option};
ghost use Rattle.mp_io.specs.Bytes.{Gives};

/// A clock that is read by one thread. Readings are in milliseconds, from any zero.
pub trait Clock {
    /// The readings so far, if the clock tells. A clock may stop telling for good, as when it can count its readings no further.
    ghost readings: { Self → Option (List ℕ) };

    /// The next reading.
    fn now(&mut self) -> u64
        ensures { Gives (readings self.old) result (readings self.new) };
}
