use crate::Reply;
use bucket_model::Brief;
use mp_types::{ETag, Key, Text};

/// What one step of the mount begins with.
#[derive(Debug, Drop)]
pub enum Event {
    /// A line begins.
    Begin {
        line: u32,
        time: u64,
    },
    /// A job's bucket call is made, at a position of the history that is at least `from`.
    Take {
        job: u64,
        time: u64,
        from: u64,
    },
    /// A job's answer has come. Its entry stands at this position of the history.
    Done {
        job: u64,
        position: u64,
        answer: Brief,
    },
}

/// Whose job it is.
#[derive(Clone, Copy, Debug, PartialEq, Eq)]
pub enum Owner {
    /// The line of this number.
    Line(u32),
    /// The stream of the handle that the line of this number opened.
    Stream(u32),
    /// The writer of the handle that the line of this number opened.
    Writer(u32),
}

/// A bucket call as the record tells it, with the length of what is put in place of the bytes.
#[derive(Debug, Drop)]
pub enum AskedCall {
    Head {
        key: Key,
    },
    Probe {
        key: Key,
    },
    /// A page of at most `max` items of the prefix, from behind `after` on.
    List {
        prefix: Text,
        after: Text,
        max: u32,
    },
    Get {
        key: Key,
        etag: ETag,
        from: u64,
        to: u64,
    },
    Delete {
        key: Key,
    },
    Put {
        key: Key,
        length: u64,
    },
    Create {
        key: Key,
    },
    /// A part of the bytes that were written, from `from` to before `to`.
    Part {
        upload: u64,
        number: u32,
        from: u64,
        to: u64,
    },
    Complete {
        upload: u64,
        parts: u32,
    },
    Abort {
        upload: u64,
    },
}

/// A job that a step asks for.
#[derive(Debug, Drop)]
pub struct Ask {
    /// The job's number, from 1 in the order of asking.
    pub job: u64,
    pub owner: Owner,
    pub call: AskedCall,
}

/// A line's reply.
#[derive(Debug, Drop)]
pub struct Answered {
    /// The line's number.
    pub line: u32,
    pub reply: Reply,
}
