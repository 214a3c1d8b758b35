//! Plays a table of scripts and of records, and prints what they are read as and how they are written: the tests of
//! `mp_script`, and those of `mp_record` that no whole run shows. A line of the table is one of these:
//!
//!     = NAME              a case begins, with an empty script
//!     | LINE              adds a line to the script
//!     * COUNT LINE        adds it so many times
//!     > LINE              adds a line with no line feed behind it, and reads the script
//!     .                   reads the script
//!     write SINK TEXT     writes the text into a sink
//!     print SINK steps COUNT      prints a record of so many steps `B 1 100000`
//!     print SINK data COUNT       prints a record of one step with a reply of so many bytes 0xA5
//!     print SINK done ANSWER..    prints a record of a step for each answer, that of job 1 at position 0
//!     print SINK mixed            prints a record of two steps, whose items don't come in the order in which they are printed
//!
//! In a LINE `\41` stands for the byte 0x41, and `\(3 ab)` for `ababab`. A SINK is `ROOM:PIECE:FAIL`: it has room for so
//! many bytes, takes so many a write at most, and its write of the number FAIL fails; with no FAIL none does. An ANSWER is
//! one of those that have no value, in the word of a record.
//!
//! A script that is read prints `read COUNT` and each line that has a request: its number, its actor, its verb and its
//! words, of which keys and data are told with their length, as `5:hello`. A path is told by its key so, or by what is
//! wrong with it: `no slash in front`, `too long`, or `no name at PLACE`. Of more than 64 bytes only the first 32
//! and the last 16 are told, and of such data none. A byte that is no plain one is told as `\41`. What is no script prints
//! `bad LINE CAUSE` or `long WHAT`, with the names that the mount's status has. The next line begins an empty script.
//!
//! What is written prints `ok` or, where a write fails, `failed`, and what the sink holds.
//!
//! An empty line, and one that begins with `#`, is printed as it is. One that can't be read is printed behind a `?`.
#![tactic(auto)]

mod play;
mod request;
mod script;
mod sink;
mod spelled;
mod tell;

use play::play;
use std::io::{self, Write};

fn play_all(rt: &HostRuntime, script: &mut Vec<u8>, printed: &mut Vec<u8>) -> io::Result<()> {
    for line in rt.lines(rt.alloc()) {
        play(rt.alloc(), script, line?.as_str(), printed)?;
    }
    Ok(())
}

fn main(rt: HostRuntime) -> io::Result<()> {
    let mut script = Vec::new(rt.alloc());
    let mut printed = Vec::new(rt.alloc());
    play_all(&rt, &mut script, &mut printed)?;
    io::writer(&rt).write_all(printed.as_slice())
}
