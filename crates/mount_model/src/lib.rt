//! The machine that the mount is: requests, replies, events, records, and all definitions that
//! say what a run is, with the laws about them. How the mount does it stands in the crates above.
#![tactic(auto)]

mod event;
mod handle;
mod record;
mod request;
mod standing;

pub use event::{Answered, Ask, AskedCall, Event, Owner};
pub use handle::{Handle, Version, Waiter, Writer};
pub use record::{Item, Record};
pub use request::{AskedPath, Line, Reply, Request, Script};
pub use standing::{Heard, Phase, Standing, Told, errno_of, told_by};
