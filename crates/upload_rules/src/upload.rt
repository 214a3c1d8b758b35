use mp_types::Errno;

/// How far a writer has come.
#[derive(Clone, Copy, Debug, PartialEq, Eq)]
pub enum UpState {
    /// It takes bytes.
    Open,
    /// It has all its bytes, and its object is to be made.
    Finished,
    /// Its object was made.
    Done,
    /// A call failed, or there was no memory for one. It stays so, with the error of the first failure.
    Failed(Errno),
}

/// What is known of the upload at the bucket.
#[derive(Clone, Copy, Debug, PartialEq, Eq)]
pub enum Created {
    /// It wasn't asked for.
    NotAsked,
    /// It was asked for, and the answer hasn't come.
    Asked,
    /// It has this id.
    Known(u64),
    /// It was given up, whatever the bucket answered.
    GivenUp,
}

/// What an upload asks of the bucket.
#[derive(Clone, Copy, Debug, PartialEq, Eq)]
pub enum UpAsk {
    /// A new upload.
    Create,
    /// That the bytes from `from` to before `to` are stored as the part of this number, from 1.
    Part { number: u32, from: u64, to: u64 },
    /// That the object is made of so many parts.
    Complete { parts: u32 },
    /// That the upload is given up.
    Abort,
}

/// Why a writer takes no bytes.
#[derive(Clone, Copy, Debug, PartialEq, Eq)]
pub enum UpFault {
    /// The upload has failed.
    Failed(Errno),
    /// The writer has all its bytes.
    Finished,
    /// The bytes don't go behind those that were written.
    OutOfOrder,
    /// There would be more bytes than the most parts may have.
    TooBig,
    /// There is no memory.
    Memory,
}
