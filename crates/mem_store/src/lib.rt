//! A bucket in memory that keeps the history of its calls.
//! It serves tests and the program alike: no clock, no file and no network stands here.
#![tactic(auto)]

mod listing;
mod log;
mod objects;
mod parts;
mod store;
mod uploads;

pub use store::MemStore;
