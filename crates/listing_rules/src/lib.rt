//! The rules of a listing: which names stand in a directory, by the items of its pages and by the mount's own names, and
//! in which order. Contracts of the reader of a directory and of the mount cite these definitions.
//! Nothing here knows of requests, or of how pages are asked for.
#![tactic(auto)]

mod laws;
mod listed;

pub use laws::{listings_are_entries, pages_of_one_state};
pub use listed::Listed;
