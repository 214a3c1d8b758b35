ghost use Rattle.std.specs.Prelude.{◌≡◌, ◌<◌, ◌∷◌, [], ◌++◌, vec_len, vec_capacity};

use crate::{Brief, Call};
use bytes::Bytes;
use mp_types::ETag;

/// An object: its ETag and its bytes.
#[derive(Debug, Drop)]
pub struct Object {
    pub etag: ETag,
    pub bytes: Bytes,
}

/// One call in a bucket's history, with its answer in brief.
#[derive(Debug, Drop)]
pub struct HEntry {
    pub call: Call,
    pub answer: Brief,
    /// Whether the call took effect. False only where the answer is a fault.
    pub took: bool,
}

/// A name that a call gave to what it made.
#[derive(Debug, Drop)]
pub enum Name {
    /// The ETag of an object version.
    Version(ETag),
    /// The id of an upload.
    Upload(u64),
}

/// An entry with the name that it made, if any.
#[derive(Debug, Drop)]
pub struct Logged {
    pub entry: HEntry,
    pub made: Option<Name>,
}

/// Adds an entry, for which the log has room. Takes no memory.
pub fn add_entry(log: &mut Vec<Logged>, entry: HEntry, made: Option<Name>)
    requires { vec_len log.old < vec_capacity log.old }
    ensures { log.new.items ≡ log.old.items ++ record { entry = entry; made = made } ∷ [] }
{
    match log.push(Logged { entry, made }) {
        Ok(()) => {}
        Err(_) => unreachable!(),
    }
}
