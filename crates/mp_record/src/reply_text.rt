ghost use Rattle.std.specs.Prelude.{◌≡◌, ◌++◌, codes, OnOk};
ghost use Rattle.mp_record.specs.RecordText.{errno_text};
ghost use Rattle.mp_record.specs.ItemText.{data_in, said_start, reply_start};

use crate::entry_text::push_listing;
use crate::item_text::{push_counted, push_made};
use mount_model::{Answered, Reply};
use mp_types::Errno;
use std::alloc::AllocError;

fn errno_name(errno: Errno) -> &'static [u8]
    ensures { result.now ≡ errno_text errno }
{
    match errno {
        Errno::Eperm => b"EPERM",
        Errno::Enoent => b"ENOENT",
        Errno::Eio => b"EIO",
        Errno::Ebadf => b"EBADF",
        Errno::Enomem => b"ENOMEM",
        Errno::Eexist => b"EEXIST",
        Errno::Enotdir => b"ENOTDIR",
        Errno::Eisdir => b"EISDIR",
        Errno::Einval => b"EINVAL",
        Errno::Emfile => b"EMFILE",
        Errno::Efbig => b"EFBIG",
        Errno::Enametoolong => b"ENAMETOOLONG",
        Errno::Enotempty => b"ENOTEMPTY",
        Errno::Eoverflow => b"EOVERFLOW",
        Errno::Estale => b"ESTALE",
    }
}

fn push_failed(out: &mut Vec<u8>, errno: Errno) -> Result<(), AllocError>
    ensures { OnOk result (out.new.items ≡ out.old.items ++ (codes "err " ++ errno_text errno)) }
{
    out.extend_from_slice(b"err ")?;
    out.extend_from_slice(errno_name(errno))
}

/// The bytes that a reply tells as data.
pub fn data_of(reply: &Reply) -> &[u8]
    ensures { result.now ≡ data_in reply.now }
{
    match reply {
        Reply::Data(bytes) => bytes.as_slice(),
        Reply::Made(_)
        | Reply::Success
        | Reply::Directory
        | Reply::File { .. }
        | Reply::Writing { .. }
        | Reply::Listed(_)
        | Reply::Open { .. }
        | Reply::Wrote { .. }
        | Reply::Gone
        | Reply::Failed(_) => &[],
    }
}

fn push_said_start(out: &mut Vec<u8>, reply: &Reply) -> Result<(), AllocError>
    ensures { OnOk result (out.new.items ≡ out.old.items ++ said_start reply.now) }
{
    match reply {
        Reply::Made(etag) => push_made(out, etag),
        Reply::Success => out.extend_from_slice(b"ok"),
        Reply::Directory => out.extend_from_slice(b"dir"),
        Reply::File { size } => push_counted(out, b"file ", *size),
        Reply::Writing { size } => push_counted(out, b"writing ", *size),
        Reply::Listed(entries) => push_listing(out, entries.as_slice()),
        Reply::Open { size } => push_counted(out, b"open ", *size),
        Reply::Wrote { length } => push_counted(out, b"wrote ", *length),
        Reply::Data(_) => out.extend_from_slice(b"data x"),
        Reply::Gone => out.extend_from_slice(b"gone"),
        Reply::Failed(errno) => push_failed(out, *errno),
    }
}

/// The line of a reply up to its data.
pub fn push_reply_start(out: &mut Vec<u8>, answered: &Answered) -> Result<(), AllocError>
    ensures { OnOk result (out.new.items ≡ out.old.items ++ reply_start answered.now) }
{
    push_counted(out, b"R ", u64::from(answered.line))?;
    out.extend_from_slice(b" ")?;
    push_said_start(out, &answered.reply)
}
