//! Plays a table of calls against what the mount keeps, and prints what each is answered: its handles, the lines of its script, the
//! uploads and the writers of its handles, and its jobs.
//! A line of the table is one call, and its answer is one line. A line that begins a case, an empty line and one that begins
//! with `#` are printed as they are. A line that can't be read, and one whose call isn't allowed as things stand, is printed
//! behind a `?`. A TEXT may be `-`, which stands for no bytes.
//!
//! `= NAME handles` begins a case with a table of handles, whose values are numbers:
//!
//!     open ACTOR NAME VALUE      get ACTOR NAME
//!     set ACTOR NAME VALUE       close ACTOR NAME
//!     len                        full
//!     open_many ACTOR COUNT      opens the names from 0 on, each with itself as its value, and tells how many could be
//!
//! `= NAME lines NUMBER:ACTOR:REQUEST ..` begins one with the lines of a script. A REQUEST is `stat` or `await`:
//!
//!     begin LINE                 reply LINE
//!     may LINE                   whether the line may begin
//!     startable                  startable_count
//!     hear LINE ANSWER           an ANSWER is `gone`, `fault` or `no`, which tells that nothing lies below a key
//!     heard LINE                 how many facts and how many other answers the line has got
//!     due                        all_replied
//!
//! `= NAME upload PART` begins one with an upload in parts of so many bytes:
//!
//!     write OFFSET TEXT          len
//!     state                      due
//!     fill OFFSET COUNT          writes COUNT bytes, of which the one at place i of the object is i modulo 251
//!     bytes                      the bytes of the part that is due
//!     ask                        asks for what is due, and tells it, with the bytes of a part
//!     ask_parts                  asks for all parts that are due, one behind the other, which have to carry the bytes of `fill`, and
//!                                tells how many they are
//!     created ID                 part_done
//!     completed                  aborted
//!     fault                      a call failed with EIO
//!     dropped                    a call was dropped
//!     lack                       there was no memory for a call
//!     finish                     close
//!
//! `= NAME writer STANDING` begins one with a handle that writes in parts of 4 bytes. It stands `open`; or `creating`, when it is
//! finished and its upload was asked for; or `giving_up`, when it has failed with ENOMEM and its abort was asked for:
//!
//!     write OFFSET COUNT         sync LINE
//!     close LINE                 answered
//!     waiter                     state
//!     due                        as above
//!     hear ANSWER                the answer to the call that was asked for: `upload ID`, `no_memory`, `stored` or `fault`. Tells whether
//!                                the writer was under way before
//!
//! `= NAME jobs` begins one with a table of jobs, of which a step of line 7 has begun:
//!
//!     ask OWED LINE head KEY     a job of the line, beside so many items that are owed already
//!     ask OWED LINE complete     a job of the writer that the line opened
//!     take JOB                   drop LINE, the first ready job of the writer
//!     done ANSWER                ends the job that was taken, before the next ask, take or drop. An ANSWER is `missing` or `stored`
//!     ready                      ready_count
//!     ready_of LINE              the first ready job of the writer
//!     empty                      last, the last item of the record
#![tactic(auto)]

mod handle_rows;
mod job_rows;
mod line_rows;
mod print;
mod table;
mod upload_rows;
mod words;
mod writer_rows;

use std::io;
use std::io::Write;
use table::{Table, play};

fn play_all(rt: &HostRuntime, table: &mut Table, printed: &mut Vec<u8>) -> io::Result<()> {
    for line in rt.lines(rt.alloc()) {
        play(rt.alloc(), table, line?.as_str(), printed)?;
    }
    Ok(())
}

fn main(rt: HostRuntime) -> io::Result<()> {
    let mut table = Table::Nothing;
    let mut printed = Vec::new(rt.alloc());
    let played = play_all(&rt, &mut table, &mut printed);
    drop(table);
    played?;
    io::writer(&rt).write_all(printed.as_slice())
}
