ghost use Rattle.std.specs.Prelude.{◌≡◌, ◌-◌, ◌^◌, ◌<◌, ◌≤◌, ◌∷◌, length, min, nat_lt, IfOk};
ghost use Rattle.mount_model.specs.Run.{AreRising};
ghost use Rattle.mp_script.specs.ScriptText.{max_script_bytes, max_lines, lines_of, script_from, count_in, given_in, bytes_together};
ghost use Rattle.mp_script.specs.Reads.{ReadsScript, ReadsLines, AddsLine};

use crate::cause::What;
use crate::cut::{Parted, cut};
use crate::fault::{Fault, ScriptError};
use crate::request::asked;
use mount_model::{Line, Request, Script};
use mp_types::Items;
use std::alloc::Global;

/// A script has at most this many bytes.
pub const MAX_BYTES: usize = 67_108_864;

// A script has at most this many lines.
const MAX_LINES: u32 = 65_536;

// The reads of a script ask for at most this many bytes together.
const MAX_READ: u64 = 268_435_456;

// The puts and writes of a script give at most this many bytes together.
const MAX_GIVEN: u64 = 268_435_456;

// The first line, and the bytes behind its end.
fn first_line(bytes: &[u8]) -> Parted<'_>
    requires { 0 < length bytes.now }
    ensures lines { lines_of bytes.now ≡ result.before.now ∷ lines_of result.after.now }
    ensures shorter { length result.after.now < length bytes.now }
{
    match cut(bytes, b'\n') {
        Some(parted) => parted,
        None => Parted {
            before: bytes,
            after: &[],
        },
    }
}

// Whether there are more lines than a script may have. No more are counted.
fn has_too_many_lines(bytes: &[u8]) -> bool
    ensures { result ≡ nat_lt max_lines (length (lines_of bytes.now)) }
{
    let mut left = MAX_LINES;
    let mut rest = bytes;
    while !rest.is_empty() {
        if left == 0 {
            return true;
        }
        left -= 1;
        rest = first_line(rest).after;
    }
    false
}

// How many bytes requests ask to read, and how many they give to be stored.
#[derive(Clone, Copy)]
struct Moved {
    read: u64,
    given: u64,
}

impl Moved {
    // What one request moves.
    fn by(request: &Request) -> Self
        ensures read { result.read ≡ count_in request.now }
        ensures given { result.given ≡ given_in request.now }
    {
        match request {
            Request::Read { count, .. } => Moved {
                read: *count,
                given: 0,
            },
            Request::Put { content, .. } | Request::Write { content, .. } => Moved {
                read: 0,
                given: content.len(),
            },
            Request::Await
            | Request::Stat { .. }
            | Request::List { .. }
            | Request::OpenRead { .. }
            | Request::OpenWrite { .. }
            | Request::OpenTruncate { .. }
            | Request::Sync { .. }
            | Request::Close { .. }
            | Request::Delete { .. }
            | Request::MakeDir { .. }
            | Request::RemoveDir { .. }
            | Request::Unlink { .. } => Moved { read: 0, given: 0 },
        }
    }

    // What all lines move together. A sum beyond the greatest u64 is told as that.
    fn together(lines: &[Line]) -> Self
        ensures read { result.read ≡ min (bytes_together count_in lines.now) (2 ^ 64 - 1) }
        ensures given { result.given ≡ min (bytes_together given_in lines.now) (2 ^ 64 - 1) }
    {
        let mut read = 0u64;
        let mut given = 0u64;
        for line in lines {
            let moved = Moved::by(&line.request);
            read = read.saturating_add(moved.read);
            given = given.saturating_add(moved.given);
        }
        Moved { read, given }
    }
}

// Adds the line of this number to those above it, unless it holds no request.
fn add_line(
    alloc: Global,
    lines: &mut Vec<Line>,
    number: u32,
    text: &[u8],
) -> Result<(), ScriptError>
    ensures { AddsLine lines.old.items number text.now result lines.new.items }
{
    if text.is_empty() || text[0] == b'#' {
        return Ok(());
    }
    match asked(alloc, text) {
        Ok((actor, request)) => Ok(lines.push(Line {
            number,
            actor,
            request,
        })?),
        Err(Fault::Cause(cause)) => Err(ScriptError::Bad {
            line: number,
            cause,
        }),
        Err(Fault::Memory) => Err(ScriptError::Memory),
    }
}

fn read_lines(alloc: Global, bytes: &[u8]) -> Result<Vec<Line>, ScriptError>
    requires { length bytes.now ≤ max_script_bytes }
    ensures { ReadsLines result (script_from 1 (lines_of bytes.now)) }
{
    let mut lines = Vec::new(alloc);
    let mut rest = bytes;
    let mut number = 1u32;
    while !rest.is_empty() {
        let parted = first_line(rest);
        match add_line(alloc, &mut lines, number, parted.before) {
            Ok(()) => {}
            Err(error) => {
                drop(lines);
                return Err(error);
            }
        }
        number += 1;
        rest = parted.after;
    }
    Ok(lines)
}

/// The lines that the bytes spell, numbered from 1 by their place in the text.
/// A script has at most 67,108,864 bytes and 65,536 lines. Its reads ask for at most 268,435,456 bytes together, and its puts and writes give at most as many.
/// Of several faults it is the first of these that is told: too many bytes, too many lines, the first bad line, too much to read, too much data.
pub fn read_script(alloc: Global, bytes: &[u8]) -> Result<Script, ScriptError>
    ensures reads { ReadsScript bytes.now result }
    ensures rising { IfOk result (AreRising 0) }
{
    if bytes.len() > MAX_BYTES {
        return Err(ScriptError::TooLong(What::Bytes));
    }
    if has_too_many_lines(bytes) {
        return Err(ScriptError::TooLong(What::Lines));
    }
    let lines = read_lines(alloc, bytes)?;
    let moved = Moved::together(lines.as_slice());
    if moved.read > MAX_READ {
        drop(lines);
        return Err(ScriptError::TooLong(What::Reads));
    }
    if moved.given > MAX_GIVEN {
        drop(lines);
        return Err(ScriptError::TooLong(What::Data));
    }
    Ok(Items::from_vec(lines))
}
