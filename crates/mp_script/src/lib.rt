//! Reads a script: the lines that bytes spell, or the first line that spells none, and why.
//! What a script is stands in the definitions of this crate; nothing here runs one, reads a file or keeps the bytes.
#![tactic(auto)]

mod cause;
mod content;
mod cut;
mod escape;
mod fault;
mod request;
mod script;
mod word;

pub use cause::{ScriptCause, What};
pub use fault::ScriptError;
pub use script::{MAX_BYTES, read_script};
