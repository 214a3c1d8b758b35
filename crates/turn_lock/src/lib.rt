//! A lock whose value stands for a list that only grows, so that each turn begins with all that its seat has seen.
//! Nothing here knows what the entries are. No clause says that a seat that waits is ever served, or in which order.
#![tactic(auto)]

mod lock;
mod plays;
mod stands;
mod view;

pub use lock::{Held, Seat, TurnLock};
pub use stands::Stands;
pub use view::{Phase, Turns, View};
