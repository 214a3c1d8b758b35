ghost use Rattle.std.specs.Prelude.{◌≡◌};

use local_names::Locals;
use mount_model::{Heard, Reply, Told, Version, Writer};
use mp_rules::QuestionRef;
use mp_types::{Data, ETag, Errno, FilePath, Key, Text};
use part_uploader::Uploader;

/// What a line does next, or the writer of the handle that it names.
#[derive(Drop)]
pub enum Plan<'a> {
    Line(LinePlan<'a>),
    /// The content goes to the writer at place `offset`, or is refused where the writer doesn't take it.
    Write {
        writer: &'a Writer<Uploader>,
        offset: u64,
        content: &'a Data,
    },
    /// The writer makes its object, and the fsync of this line waits for it.
    Sync {
        writer: &'a Writer<Uploader>,
        line: u32,
    },
    /// The writer makes its object, and the close of this line waits for it.
    Finish {
        writer: &'a Writer<Uploader>,
        line: u32,
    },
}

/// What a line does next by itself.
#[derive(Drop)]
pub enum LinePlan<'a> {
    /// It asks this about a key of 1 to 1,024 bytes.
    Ask(QuestionRef<'a>),
    /// It asks for a page of at most `max` items of the directory at this path, behind a text, or for the first one.
    Page {
        path: &'a FilePath,
        after: Option<&'a Text>,
        max: u32,
    },
    /// It asks for the bytes `from..to` of this version. `from` is less than `to`.
    Get {
        version: &'a Version,
        from: u64,
        to: u64,
    },
    /// It stores the content at the key.
    Put {
        key: &'a Key,
        content: &'a Data,
    },
    /// It deletes the object at the key.
    Delete(&'a Key),
    /// It deletes the object at this key, of 1 to 1,024 bytes.
    Unlink(&'a str),
    /// It is done.
    Reply(Reply),
    /// It makes the directory of this key, of 1 to 1,024 bytes, a name of the mount's own.
    MakeDir(&'a str),
    /// It gives up the mount's own directory of this key, of 1 to 1,024 bytes.
    RemoveDir(&'a str),
    /// It opens its handle on this version of the object at the key, of 1 to 1,024 bytes. `size` counts bytes.
    Open {
        key: &'a str,
        etag: ETag,
        size: u64,
    },
    /// It opens its handle on a new file at the key, of 1 to 1,024 bytes.
    Create {
        key: &'a str,
    },
    /// It gives the names in the directory at this path: those that the pages among its answers show, and the mount's
    /// own.
    List {
        path: &'a FilePath,
        heard: &'a Heard,
        last: Option<&'a Told>,
        names: &'a Locals,
    },
    /// It gives the bytes of its last answer, `count` of them. No bytes may also come without any call.
    Give {
        count: u64,
    },
    /// It waits for other lines.
    Wait,
}

/// The plan to fail the line with this error.
pub fn failed<'a>(errno: Errno) -> LinePlan<'a>
    ensures { result ≡ LinePlan.Reply (Reply.Failed errno) }
{
    LinePlan::Reply(Reply::Failed(errno))
}
