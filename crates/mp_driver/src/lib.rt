//! Drives a core on one thread until it is quiet: it makes the core's bucket calls and reads the clock.
//! It knows nothing of requests, paths or texts.
#![tactic(auto)]

mod driving;
mod held;
mod schedule;

pub use driving::drive;
pub use schedule::Schedule;
