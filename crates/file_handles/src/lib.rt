//! The live handles of the mount, reading and writing: what a request or an answer does to the one under a name.
//! Nothing here asks a call or answers a line.
#![tactic(auto)]

mod handles;
mod writer;

pub use handles::{answered, hear, open, wait, write, writer_at};
