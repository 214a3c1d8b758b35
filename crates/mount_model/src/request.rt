use bytes::Bytes;
use mp_rules::DirEntry;
use mp_types::{Data, ETag, Errno, FilePath, Items, Key, PathFault};

/// The path that a line gives, or why its text is no path.
pub type AskedPath = Result<FilePath, PathFault>;

/// What one line of a script asks for.
#[derive(Debug, Drop)]
pub enum Request {
    /// Others store an object.
    Put {
        key: Key,
        content: Data,
    },
    /// Waits until every line above has its reply.
    Await,
    /// Asks what stands at a path.
    Stat {
        path: AskedPath,
    },
    /// Asks what stands in the directory at a path.
    List {
        path: AskedPath,
    },
    /// Opens the object at a path for reading, under a name of the process's own.
    OpenRead {
        handle: u16,
        path: AskedPath,
    },
    /// Opens a new file at a path for writing, where nothing stands.
    OpenWrite {
        handle: u16,
        path: AskedPath,
    },
    /// Opens a new file at a path for writing, in the place of an object too, where the options allow it.
    OpenTruncate {
        handle: u16,
        path: AskedPath,
    },
    /// Reads at most `count` bytes from place `offset` on.
    Read {
        handle: u16,
        offset: u64,
        count: u64,
    },
    /// Writes bytes at place `offset`, which has to be the end.
    Write {
        handle: u16,
        offset: u64,
        content: Data,
    },
    /// Waits until what was written is an object.
    Sync {
        handle: u16,
    },
    /// Gives a handle up. What was written is an object from then on.
    Close {
        handle: u16,
    },
    /// Others delete an object.
    Delete {
        key: Key,
    },
    /// Makes a directory of the mount's own.
    MakeDir {
        path: AskedPath,
    },
    /// Removes a directory of the mount's own.
    RemoveDir {
        path: AskedPath,
    },
    /// Deletes the file at a path.
    Unlink {
        path: AskedPath,
    },
}

/// The answer to a line.
#[derive(Debug, Drop)]
pub enum Reply {
    /// An object was made.
    Made(ETag),
    /// Done, with nothing to tell.
    Success,
    /// A directory stands there.
    Directory,
    /// A file of this many bytes stands there.
    File { size: u64 },
    /// A file that is being written stands there, with so many bytes so far.
    Writing { size: u64 },
    /// What stands in a directory, in the order of a listing.
    Listed(Items<DirEntry>),
    /// A handle on a file of this many bytes.
    Open { size: u64 },
    /// So many bytes were written.
    Wrote { length: u64 },
    /// The bytes that were read.
    Data(Bytes),
    /// No object stands at the key any more.
    Gone,
    /// The request failed.
    Failed(Errno),
}

/// A line of a script.
#[derive(Debug, Drop)]
pub struct Line {
    /// The line's place in the script's text, from 1. Numbers rise; empty lines and comments have none.
    pub number: u32,
    /// The process that asks, 1 to 999, or 0 for the others.
    pub actor: u16,
    pub request: Request,
}

/// The lines of a script, in order.
pub type Script = Items<Line>;
