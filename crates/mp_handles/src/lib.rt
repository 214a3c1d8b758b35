//! The table of open handles: a value for each name that a process gave a handle, at most 4,096 at once.
//! It knows nothing of what the values are.
#![tactic(auto)]

mod handles;

pub use handles::{Handles, OpenFault};
