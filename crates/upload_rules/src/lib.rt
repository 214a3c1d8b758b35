//! The rules of one upload: when a new object is asked for at the bucket, part by part, and what happens where the
//! bucket fails. Contracts of the uploader and of the mount cite these definitions.
//! Nothing here knows of a bucket's calls, of requests or of buffers.
#![tactic(auto)]

mod laws;
mod upload;

pub use laws::{asking_is_once, parts_are_few, parts_are_the_bytes, parts_have_their_place};
pub use upload::{Created, UpAsk, UpFault, UpState};
