use crate::handle_rows::play_handles;
use crate::job_rows::play_jobs;
use crate::line_rows::{lines_of, play_lines};
use crate::print::say;
use crate::upload_rows::{Caller, play_upload};
use crate::words::{number, only, words_of};
use crate::writer_rows::{desk_with, play_writer};
use crate::{job_rows, writer_rows};
use line_table::Lines;
use mp_handles::Handles;
use std::alloc::{AllocError, Global};
use std::mem;

/// What a case plays against.
#[derive(Drop)]
pub enum Table {
    /// No case has begun.
    Nothing,
    Handles(Handles<u64>),
    Lines(Lines),
    Upload(Caller),
    Writer(writer_rows::Desk),
    Jobs(job_rows::Desk),
}

fn begin_lines(alloc: Global, arguments: &[&str]) -> Option<Table> {
    Some(Table::Lines(lines_of(alloc, arguments)?))
}

fn begin_upload(alloc: Global, arguments: &[&str]) -> Option<Table> {
    Some(Table::Upload(Caller::new(alloc, number(only(arguments)?)?)?))
}

fn begin_writer(alloc: Global, arguments: &[&str]) -> Option<Table> {
    Some(Table::Writer(desk_with(alloc, only(arguments)?)?))
}

fn begin_jobs(alloc: Global) -> Option<Table> {
    match job_rows::Desk::new(alloc) {
        Ok(desk) => Some(Table::Jobs(desk)),
        Err(_) => None,
    }
}

// What a case of these words begins with.
fn begun(alloc: Global, kind: &str, arguments: &[&str]) -> Option<Table> {
    match kind {
        "handles" if arguments.is_empty() => Some(Table::Handles(Handles::new(alloc))),
        "lines" => begin_lines(alloc, arguments),
        "upload" => begin_upload(alloc, arguments),
        "writer" => begin_writer(alloc, arguments),
        "jobs" if arguments.is_empty() => begin_jobs(alloc),
        _ => None,
    }
}

// Has a case begin.
fn begin(alloc: Global, table: &mut Table, kind: &str, arguments: &[&str]) -> Option<()> {
    let begun = begun(alloc, kind, arguments)?;
    drop(mem::replace(table, begun));
    Some(())
}

// Plays a line of these words, if it is one that is allowed.
fn answer(
    alloc: Global,
    table: &mut Table,
    line: &str,
    words: &[&str],
    printed: &mut Vec<u8>,
) -> Option<()> {
    match words {
        ["=", _, kind, arguments @ ..] => {
            begin(alloc, table, *kind, arguments)?;
            say(printed, line)
        }
        [verb, arguments @ ..] => match table {
            Table::Nothing => None,
            Table::Handles(handles) => play_handles(handles, *verb, arguments, printed),
            Table::Lines(lines) => play_lines(alloc, lines, *verb, arguments, printed),
            Table::Upload(caller) => play_upload(alloc, caller, *verb, arguments, printed),
            Table::Writer(desk) => play_writer(desk, *verb, arguments, printed),
            Table::Jobs(desk) => play_jobs(alloc, desk, *verb, arguments, printed),
        },
        [] => None,
    }
}

fn print_unread(printed: &mut Vec<u8>, line: &str) -> Result<(), AllocError> {
    printed.extend_from_slice(b"? ")?;
    printed.extend_from_slice(line.as_bytes())
}

/// Plays a line of the table, and prints one.
pub fn play(
    alloc: Global,
    table: &mut Table,
    line: &str,
    printed: &mut Vec<u8>,
) -> Result<(), AllocError> {
    if line.is_empty() || line.as_bytes().starts_with(b"#") {
        printed.extend_from_slice(line.as_bytes())?;
    } else {
        let words = words_of(alloc, line, ' ')?;
        let played = answer(alloc, table, line, words.as_slice(), printed);
        drop(words);
        match played {
            Some(()) => {}
            None => print_unread(printed, line)?,
        }
    }
    printed.extend_from_slice(b"\n")
}
