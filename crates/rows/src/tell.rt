use crate::row::Row;
use itoa::Buffer;
use mount_core::Core;
use mount_model::Record;
use mp_io::MemSink;
use mp_record::{PrintFault, print_record};
use mp_script::{ScriptCause, ScriptError, What};
use std::alloc::{AllocError, Global};

// A sink has room for so many bytes, and takes so many a write.
const ROOM: usize = 4_194_304;

const PIECE: usize = 65_536;

pub fn tell_name(name: &[u8], out: &mut Vec<u8>) -> Result<(), AllocError> {
    out.extend_from_slice(b"= ")?;
    tell_line(name, out)
}

/// Tells a word that is none.
pub fn tell_unknown(word: &[u8], out: &mut Vec<u8>) -> Result<(), AllocError> {
    out.extend_from_slice(b"? ")?;
    tell_line(word, out)
}

/// Tells want of memory.
pub fn tell_memory(out: &mut Vec<u8>) -> Result<(), AllocError> {
    tell_line(b"! memory", out)
}

fn tell_line(line: &[u8], out: &mut Vec<u8>) -> Result<(), AllocError> {
    out.extend_from_slice(line)?;
    Ok(out.push(b'\n')?)
}

fn cause_text(cause: ScriptCause) -> &'static str {
    match cause {
        ScriptCause::Actor => "actor",
        ScriptCause::Verb => "verb",
        ScriptCause::Words => "words",
        ScriptCause::Handle => "handle",
        ScriptCause::Number => "number",
        ScriptCause::Escape => "escape",
        ScriptCause::Utf8 => "utf8",
        ScriptCause::Key => "key",
        ScriptCause::Data => "data",
    }
}

fn what_text(what: What) -> &'static str {
    match what {
        What::Bytes => "bytes",
        What::Lines => "lines",
        What::Reads => "reads",
        What::Data => "data",
    }
}

// Tells a number between a word and the end of its line.
fn tell_numbered(
    word: &[u8],
    number: u64,
    text: &[u8],
    out: &mut Vec<u8>,
) -> Result<(), AllocError> {
    out.extend_from_slice(word)?;
    out.extend_from_slice(Buffer::new().format(number).as_bytes())?;
    out.extend_from_slice(text)?;
    Ok(out.push(b'\n')?)
}

/// Tells why a script is none.
pub fn tell_refusal(error: ScriptError, out: &mut Vec<u8>) -> Result<(), AllocError> {
    match error {
        ScriptError::Bad { line, cause } => {
            out.extend_from_slice(b"bad ")?;
            out.extend_from_slice(Buffer::new().format(line).as_bytes())?;
            out.extend_from_slice(b" ")?;
            tell_line(cause_text(cause).as_bytes(), out)
        }
        ScriptError::TooLong(what) => {
            out.extend_from_slice(b"long ")?;
            tell_line(what_text(what).as_bytes(), out)
        }
        ScriptError::Memory => Err(AllocError),
    }
}

// Whether a line of a record is told.
fn is_told(line: &[u8], is_whole: bool) -> bool {
    if is_whole {
        return !line.is_empty();
    }
    line.starts_with(b"R ")
}

fn count_told(text: &[u8], is_whole: bool) -> u64 {
    let mut count = 0u64;
    for line in text.split(|byte| *byte == b'\n') {
        if is_told(line, is_whole) {
            count = count.saturating_add(1);
        }
    }
    count
}

// Tells a line, of which only the ends may be told.
fn tell_ends(line: &[u8], ends: u64, out: &mut Vec<u8>) -> Result<(), AllocError> {
    let most = (line.len() / 2) as u64;
    if most <= ends {
        return tell_line(line, out);
    }
    let len = ends as usize;
    out.extend_from_slice(&line[..len])?;
    out.extend_from_slice(b"..")?;
    tell_line(&line[line.len() - len..], out)
}

// Tells a record's text, as the row asks for.
fn tell_text(row: &Row, text: &[u8], out: &mut Vec<u8>) -> Result<(), AllocError> {
    let mut passed = count_told(text, row.is_whole).saturating_sub(row.tail);
    for line in text.split(|byte| *byte == b'\n') {
        if is_told(line, row.is_whole) {
            if passed > 0 {
                passed -= 1;
            } else {
                tell_ends(line, row.ends, out)?;
            }
        }
    }
    Ok(())
}

// The sink that the row asks for.
fn sink_of(alloc: Global, row: &Row) -> Result<MemSink, AllocError> {
    match row.writes {
        Some(number) => {
            let fails = vec![in alloc; number.saturating_add(1)]?;
            MemSink::new(alloc, ROOM, 1, fails)
        }
        None => MemSink::new(alloc, ROOM, PIECE, Vec::new(alloc)),
    }
}

// Prints a record into a sink, and tells what it holds then.
fn tell_record(
    alloc: Global,
    row: &Row,
    record: &Record,
    sink: &mut MemSink,
    out: &mut Vec<u8>,
) -> Result<(), AllocError> {
    let printed = print_record(alloc, record, sink);
    tell_text(row, sink.held(), out)?;
    match printed {
        Ok(()) => Ok(()),
        Err(PrintFault::Sink) => tell_line(b"! sink", out),
        Err(PrintFault::Memory) => Err(AllocError),
    }
}

fn has_reply(core: &Core, number: u64) -> bool {
    match u32::try_from(number) {
        Ok(line) => core.reply(line).is_some(),
        Err(_) => false,
    }
}

// Tells which of these lines have a reply.
fn tell_replies(core: &Core, asked: &[u64], out: &mut Vec<u8>) -> Result<(), AllocError> {
    for number in asked {
        if has_reply(core, *number) {
            tell_numbered(b"reply ", *number, b" yes", out)?;
        } else {
            tell_numbered(b"reply ", *number, b" no", out)?;
        }
    }
    Ok(())
}

/// Tells what came of a row: the record, and what it asks for at the end.
pub fn tell_end(
    alloc: Global,
    row: &Row,
    core: &Core,
    mark: u64,
    out: &mut Vec<u8>,
) -> Result<(), AllocError> {
    let mut sink = sink_of(alloc, row)?;
    tell_record(alloc, row, core.record(), &mut sink, out)?;
    if row.has_mark {
        tell_numbered(b"mark ", mark, b"", out)?;
    }
    tell_replies(core, row.asked.as_slice(), out)
}
