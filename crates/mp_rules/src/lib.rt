//! The rules of a file system over a bucket: which names there are, which key a path has, what stands below what,
//! what hides what, and in which order names come.
//! Nothing here knows of requests, of the bucket's calls or of records. Only a fact that is kept takes memory.
#![tactic(auto)]

mod entry;
mod facts;
mod keys;
mod names;

pub use entry::{DirEntry, Entry, Kind, Local, entry_of};
pub use facts::{Fact, Known, OwnFacts, Question, QuestionRef};
pub use keys::{below, key_of};
pub use names::{name_order, names_are_ordered};
