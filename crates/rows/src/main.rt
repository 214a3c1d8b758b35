//! Plays the rows of a table. Each row is a script with words that say what it is served over and what is printed:
//! the mount's tests of whole scripts, as text. It reads the table from standard input.
//!
//! A row begins with a line `= NAME WORD WORD ..`. The lines behind it, up to the next line that begins with `= `, are
//! its script, whose lines are numbered from 1 by their place in the row. A line `* N LINE` among them is N copies of
//! LINE, in which the first run of `#` is the copy's number from 0, with as many digits at least.
//!
//! A row is served by `drive` over an empty store of its own, `Meddled<Faulty<MemStore>>`. The words, in any order:
//!
//! | word | meaning |
//! |---|---|
//! | `record` | the whole record is printed, and not the replies alone |
//! | `tail:N` | only the last N of these lines are printed |
//! | `ends:N` | of a line of more than 2N bytes the first N, `..` and the last N are printed |
//! | `part:N`, `page:N` | the options of these names |
//! | `delete`, `overwrite` | objects may be deleted, or overwritten |
//! | `before:N` | call N fails before it reaches the store |
//! | `after:N` | call N takes effect, and its answer is lost |
//! | `gone:N:KEY` | in front of call N others delete KEY |
//! | `put:N:KEY:TEXT` | in front of call N others put TEXT at KEY, both as they stand here |
//! | `order:N,N,..` | the schedule is this list of choices; without the word it is `Oldest` |
//! | `clock:N,N,..` | the clock's readings, of which the last one stays; without the word 0 |
//! | `begin:N,N,..` | nothing is driven: these lines begin, and no call is made |
//! | `mark` | at the end `mark N` is printed, the count of the store's entries |
//! | `reply:N` | at the end `reply N yes` is printed where line N has a reply, else `reply N no` |
//! | `sink:N` | the sink takes a byte a write, and each write behind the Nth fails |
//!
//! Numbers are counted from 1. The words `before`, `after`, `gone`, `put` and `reply` may come again. Changes by others
//! are calls of the store as well, so `before` and `after` count them, and `gone` and `put` don't.
//!
//! Of each row `= NAME` is printed, and then the record's lines, or `bad LINE CAUSE` or `long WHAT` where the script is
//! none. Behind them `! sink` tells that the sink failed: what it holds stands above. For the first word that is
//! none of these `? WORD` is printed, and nothing else. `! memory` tells want of memory.
#![tactic(auto)]

mod copies;
mod cut;
mod play;
mod row;
mod tell;
mod words;

use play::play;
use std::alloc::{AllocError, Global};
use std::io::{self, Read, Write};

// Plays all rows, one after another.
fn play_all(alloc: Global, table: &[u8], out: &mut Vec<u8>) -> Result<(), AllocError> {
    let mut rest = table;
    while !rest.is_empty() {
        let parted = cut::first_row(rest);
        play(alloc, parted.before, out)?;
        rest = parted.after;
    }
    Ok(())
}

fn main(rt: HostRuntime) -> io::Result<()> {
    let mut table = Vec::new(rt.alloc());
    rt.reader().read_to_end(&mut table)?;
    let mut out = Vec::new(rt.alloc());
    play_all(rt.alloc(), table.as_slice(), &mut out)?;
    io::writer(&rt).write_all(out.as_slice())
}
