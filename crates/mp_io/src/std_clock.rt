ghost use Rattle.std.specs.Prelude.{◌≡◌, ◌-◌, ◌/◌, ◌^◌, min, None, MatchResult};
ghost use Rattle.std.specs.Time.{system_time_nanos};

use crate::clock::Clock;
use std::io;
use std::marker::Model;
use std::time::{SystemTime, UNIX_EPOCH};

/// The host's wall clock, in milliseconds since the Unix epoch; it stays at the greatest `u64` once there.
/// A clock that fails or stands before the epoch reads 0. Contracts see the clock that is read.
#[derive(Drop)]
pub struct StdClock<C> {
    clock: C,
}

impl<C> Model for StdClock<C> {
    ghost Value = { C };

    ghost coded = { C.code };

    ghost view = { λ a. a.clock };
}

impl<C> StdClock<C> {
    /// The clock that the runtime gives.
    pub fn new(clock: C) -> Self
        ensures { result ≡ clock }
    {
        StdClock { clock }
    }
}

// What a clock's answer reads.
fn milliseconds(time: io::Result<SystemTime>) -> u64
    ensures { MatchResult time (λ t. result ≡ min (system_time_nanos t / 1_000_000) (2 ^ 64 - 1)) (λ _. result ≡ 0) }
{
    let Ok(time) = time else { return 0 };
    match time.duration_since(UNIX_EPOCH) {
        Ok(since) => u64::try_from(since.as_millis()).unwrap_or(u64::MAX),
        Err(_) => 0,
    }
}

impl<C: std::rt::Clock> Clock for StdClock<C> {
    ghost readings = { λ _. None };

    fn now(&mut self) -> u64 {
        milliseconds(SystemTime::now(&self.clock))
    }
}

#[cfg(test)]
mod tests {
    use super::*;

    #[test]
    fn reads_the_host_clock(rt: HostRuntime) {
        let mut clock = StdClock::new(&rt);
        assert!(rt; clock.now() > 0);
    }
}
