use crate::tell::{WHOLE, tell_bytes, tell_counted, tell_word};
use mount_model::{AskedPath, Line, Request};
use mp_types::{Data, PathFault};
use std::alloc::Global;

fn tell_content(alloc: Global, content: &Data, printed: &mut Vec<u8>) -> Option<()> {
    if content.len() > WHOLE as u64 {
        tell_counted(printed, " ", content.len())?;
        return tell_word(printed, ":..");
    }
    let bytes = content.to_vec(alloc).ok()?;
    tell_bytes(printed, " ", bytes.as_slice())
}

fn tell_fault(printed: &mut Vec<u8>, why: &PathFault) -> Option<()> {
    match why {
        PathFault::Empty => tell_word(printed, "no slash in front"),
        PathFault::TooLong => tell_word(printed, "too long"),
        PathFault::BadName(place) => tell_counted(printed, "no name at ", *place as u64),
        PathFault::Memory => None,
    }
}

fn tell_path(printed: &mut Vec<u8>, word: &str, path: &AskedPath) -> Option<()> {
    match path {
        Ok(path) => tell_bytes(printed, word, path.as_key().as_bytes()),
        Err(why) => {
            tell_word(printed, word)?;
            tell_fault(printed, why)
        }
    }
}

fn tell_open(printed: &mut Vec<u8>, verb: &str, handle: u16, path: &AskedPath) -> Option<()> {
    tell_counted(printed, verb, u64::from(handle))?;
    tell_path(printed, " ", path)
}

fn tell_range(printed: &mut Vec<u8>, handle: u16, offset: u64, count: u64) -> Option<()> {
    tell_counted(printed, " read ", u64::from(handle))?;
    tell_counted(printed, " ", offset)?;
    tell_counted(printed, " ", count)
}

fn tell_request(alloc: Global, request: &Request, printed: &mut Vec<u8>) -> Option<()> {
    match request {
        Request::Put { key, content } => {
            tell_bytes(printed, " put ", key.as_str().as_bytes())?;
            tell_content(alloc, content, printed)
        }
        Request::Delete { key } => tell_bytes(printed, " delete ", key.as_str().as_bytes()),
        Request::Await => tell_word(printed, " await"),
        Request::Stat { path } => tell_path(printed, " stat ", path),
        Request::List { path } => tell_path(printed, " list ", path),
        Request::OpenRead { handle, path } => tell_open(printed, " openr ", *handle, path),
        Request::OpenWrite { handle, path } => tell_open(printed, " openw ", *handle, path),
        Request::OpenTruncate { handle, path } => tell_open(printed, " opent ", *handle, path),
        Request::Read {
            handle,
            offset,
            count,
        } => tell_range(printed, *handle, *offset, *count),
        Request::Write {
            handle,
            offset,
            content,
        } => {
            tell_counted(printed, " write ", u64::from(*handle))?;
            tell_counted(printed, " ", *offset)?;
            tell_content(alloc, content, printed)
        }
        Request::Sync { handle } => tell_counted(printed, " fsync ", u64::from(*handle)),
        Request::Close { handle } => tell_counted(printed, " close ", u64::from(*handle)),
        Request::MakeDir { path } => tell_path(printed, " mkdir ", path),
        Request::RemoveDir { path } => tell_path(printed, " rmdir ", path),
        Request::Unlink { path } => tell_path(printed, " unlink ", path),
    }
}

/// Tells a line of a script.
pub fn tell_line(alloc: Global, line: &Line, printed: &mut Vec<u8>) -> Option<()> {
    tell_counted(printed, "", u64::from(line.number))?;
    tell_counted(printed, " ", u64::from(line.actor))?;
    tell_request(alloc, &line.request, printed)?;
    tell_word(printed, "\n")
}
