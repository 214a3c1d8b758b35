ghost use Rattle.std.specs.Prelude.{◌≡◌, false, IfOk, IsOk};
ghost use Rattle.bucket_model.specs.Answers.{brief_of, brings_page, bytes_in, made_by};

use crate::{Name, Page};
use bytes::Bytes;
use mp_types::ETag;
use std::alloc::AllocError;

/// What a bucket answers a call with.
#[derive(Debug, Drop)]
pub enum Answer {
    /// The object's ETag and its size in bytes.
    Found { etag: ETag, size: u64 },
    /// No object stands at the key.
    Missing,
    /// Some key begins so.
    Yes,
    /// No key begins so.
    No,
    /// The items that were asked for.
    Page(Page),
    /// The bytes of the range that was asked for.
    Bytes(Bytes),
    /// The object has another ETag than the one asked for, or ends before the range does.
    Changed,
    /// No object stands at the key any more.
    Gone,
    /// The new object's ETag.
    Made(ETag),
    /// The id of the new upload.
    Upload(u64),
    /// The part is stored.
    Stored,
    /// No such upload is staged, or its parts aren't those that were named.
    NoUpload,
    /// The bucket failed. The call may have taken effect or not.
    Fault,
    /// There was no memory. The call took no effect.
    NoMemory,
}

/// An answer with bytes replaced by their length, as it stands in histories and records.
#[derive(Debug, Drop, PartialEq, Eq)]
pub enum Brief {
    Found { etag: ETag, size: u64 },
    Missing,
    Yes,
    No,
    Page(Page),
    Bytes { length: u64 },
    Changed,
    Gone,
    Made(ETag),
    Upload(u64),
    Stored,
    NoUpload,
    Fault,
    NoMemory,
}

/// Which variant an answer is, without what it brings.
#[derive(Clone, Copy, Debug, PartialEq, Eq)]
pub enum AnswerKind {
    Found,
    Missing,
    Yes,
    No,
    Page,
    Bytes,
    Changed,
    Gone,
    Made,
    Upload,
    Stored,
    NoUpload,
    Fault,
    NoMemory,
}

impl Brief {
    /// The name that the answer tells of, if it tells of one. Takes no memory.
    pub fn made(&self) -> Option<Name>
        ensures { result ≡ made_by self.now }
    {
        match self {
            Brief::Made(etag) => Some(Name::Version(etag.copy())),
            Brief::Upload(upload) => Some(Name::Upload(*upload)),
            _ => None,
        }
    }
}

impl Answer {
    /// The answer in brief. The items of a page are shared: an error says that they have too many owners, and comes for no
    /// other answer. Takes no memory.
    pub fn brief(&self) -> Result<Brief, AllocError>
        ensures ok { IfOk result (λ brief. brief ≡ brief_of self.now) }
        ensures plain { brings_page self.now ≡ false → IsOk result }
    {
        Ok(match self {
            Answer::Found { etag, size } => Brief::Found {
                etag: etag.copy(),
                size: *size,
            },
            Answer::Missing => Brief::Missing,
            Answer::Yes => Brief::Yes,
            Answer::No => Brief::No,
            Answer::Page(page) => Brief::Page(page.share()?),
            Answer::Bytes(bytes) => Brief::Bytes {
                length: bytes.len() as u64,
            },
            Answer::Changed => Brief::Changed,
            Answer::Gone => Brief::Gone,
            Answer::Made(etag) => Brief::Made(etag.copy()),
            Answer::Upload(upload) => Brief::Upload(*upload),
            Answer::Stored => Brief::Stored,
            Answer::NoUpload => Brief::NoUpload,
            Answer::Fault => Brief::Fault,
            Answer::NoMemory => Brief::NoMemory,
        })
    }

    /// The answer in brief, and the bytes that it brings, or none. Nothing is copied.
    pub fn split(self) -> (Brief, Bytes)
        ensures brief { result.0 ≡ brief_of self }
        ensures bytes { result.1 ≡ bytes_in self }
    {
        match self {
            Answer::Bytes(bytes) => {
                let length = bytes.len() as u64;
                (Brief::Bytes { length }, bytes)
            }
            Answer::Page(page) => (Brief::Page(page), Bytes::new()),
            other => match other.brief() {
                Ok(brief) => (brief, Bytes::new()),
                Err(_) => unreachable!(),
            },
        }
    }
}
