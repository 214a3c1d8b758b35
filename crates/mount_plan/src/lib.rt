//! What a line of a script does next, from its request, what it sees of the mount and what it has heard of its own
//! calls.
//! Nothing here takes memory: the keys asked about are parts of the path's own text.
//! No jobs, records or stores stand here.
#![tactic(auto)]

mod answered;
mod close;
mod delete;
mod list;
mod lookup;
mod make;
mod next;
mod open;
mod planned;
mod put;
mod read;
mod remove;
mod stat;
mod sync;
mod unlink;
mod view;
mod write;

pub use list::unkept_errno;
pub use next::plan;
pub use planned::{LinePlan, Plan};
pub use view::View;
