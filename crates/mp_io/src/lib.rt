//! Where bytes and times come from and go to: sources, sinks and clocks, in memory and of the host.
//! Nothing here knows what the bytes mean.
#![tactic(auto)]

mod clock;
mod list_clock;
mod mem_sink;
mod mem_source;
mod sink;
mod source;
mod std_clock;
mod std_sink;
mod std_source;

pub use clock::Clock;
pub use list_clock::ListClock;
pub use mem_sink::MemSink;
pub use mem_source::MemSource;
pub use sink::Sink;
pub use source::{Failed, Source};
pub use std_clock::StdClock;
pub use std_sink::StdSink;
pub use std_source::StdSource;
