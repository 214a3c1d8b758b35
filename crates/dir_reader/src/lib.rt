//! Reads one directory: it gathers the names that the pages of a listing show, adds the mount's own, and gives them
//! in order. Its memory is that of the names; pages aren't kept.
//! It says which page to ask for next, and knows nothing of jobs, lines or records.
#![tactic(auto)]

mod listed_name;
mod names;
mod reader;

pub use reader::{DirReader, last_text_of, page_call, prefix_text};
