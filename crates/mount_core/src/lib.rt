//! The mount on one thread: it takes one event at a time and records what follows from it.
//! It calls no bucket, reads no clock, and knows nothing of scripts' or records' texts.
#![tactic(auto)]

mod client;
mod due;
mod listing;
mod seen;
mod turn;
mod work;
mod writing;

pub use client::Core;
