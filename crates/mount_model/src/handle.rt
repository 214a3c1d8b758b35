use mp_types::{ETag, Key};

/// An object as an open found it. Its reads ask for this ETag alone.
#[derive(Debug, Drop)]
pub struct Version {
    pub key: Key,
    pub etag: ETag,
    /// How many bytes the object has.
    pub size: u64,
}

/// Who waits for a writer.
#[derive(Clone, Copy, Debug, PartialEq, Eq)]
pub enum Waiter {
    Nobody,
    /// The fsync of this line.
    Sync(u32),
    /// The close of this line.
    Close(u32),
}

/// A handle that writes a new object. `U` is the upload.
#[derive(Debug, Drop)]
pub struct Writer<U> {
    /// The number of the line that opened it.
    pub line: u32,
    pub key: Key,
    pub upload: U,
    pub waiter: Waiter,
}

/// A handle that a process holds.
#[derive(Debug, Drop)]
pub enum Handle<U> {
    /// It reads the version that the line of this number found.
    Reading { line: u32, version: Version },
    /// It writes.
    Writing(Writer<U>),
}
