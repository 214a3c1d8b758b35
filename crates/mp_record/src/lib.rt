//! The text of a record, written to a sink. What the text is stands in the definitions of this crate.
//! Nothing here decides what is recorded.
#![tactic(auto)]

mod digits;
mod entry_text;
mod escape;
mod item_text;
mod kind;
mod print;
mod reply_text;
mod steps;
mod write;

pub use print::{PrintFault, print_record};
pub use write::write_all;
