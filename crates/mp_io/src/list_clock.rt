ghost use Rattle.std.specs.Prelude.{◌≡◌, ◌<◌, length};
ghost use Rattle.mp_io.specs.Bytes.{Gives};
ghost use Rattle.mp_types.specs.Count.{risen};
ghost use Rattle.mp_io.specs.Readings.{reading_after, told_by};

use crate::clock::Clock;
use std::marker::Model;

/// A clock that gives the readings of a list in turn, and then the last one again.
/// The count of the readings given stays at the greatest `u64` once there, and the clock tells them no longer.
#[derive(Drop)]
pub struct ListClock {
    readings: Vec<u64>,
    calls: u64,
}

impl Model for ListClock {
    ghost use Rattle.std.specs.Prelude.{◌<◌, length};
    ghost use Rattle.mp_io.specs.Readings.{ClockState};

    ghost Value = { ClockState };

    ghost view = { λ a. record { readings = a.readings.items; calls = a.calls } };

    ghost invariant = { λ a. 0 < length a.readings.items };
}

impl ListClock {
    /// A clock of these readings.
    pub fn new(readings: Vec<u64>) -> Self
        requires { 0 < length readings.items }
        ensures { result ≡ record { readings = readings.items; calls = 0 } }
    {
        ListClock { readings, calls: 0 }
    }
}

impl Clock for ListClock {
    ghost readings = { λ clock. told_by clock };

    fn now(&mut self) -> u64
        ensures gives { Gives (told_by self.old) result (told_by self.new) }
        ensures reading { result ≡ reading_after self.old.readings self.old.calls }
        ensures after { self.new ≡ record { readings = self.old.readings; calls = risen self.old.calls } }
    {
        let last = self.readings.len() - 1;
        let at = self.calls.min(last as u64) as usize;
        self.calls = self.calls.saturating_add(1);
        self.readings[at]
    }
}

#[cfg(test)]
mod tests {
    use super::*;
    use std::test::Fail;

    fn four_readings(clock: &mut ListClock) -> [u64; 4] {
        [clock.now(), clock.now(), clock.now(), clock.now()]
    }

    #[test]
    fn gives_the_last_reading_again(rt: HostRuntime) -> Result<(), Fail> {
        let readings = vec![in rt.alloc(); 0u64, 5]?;
        assert!(rt; !readings.is_empty());
        let mut clock = ListClock::new(readings);
        assert!(rt; four_readings(&mut clock) == [0, 5, 5, 5]);
        Ok(())
    }
}
