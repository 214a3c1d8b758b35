//! Plays a table of calls and prints what each is answered: the tests of the base types and of the buckets in memory.
//! A line of the table is one call, and its answer is one line:
//!
//!     = NAME LISTED..            a case begins, with an empty bucket. Where something is listed, the bucket stands inside the
//!                                stores for tests: `N:before` and `N:after` have the bucket's N-th call fail, from 1, and
//!                                `N:put:KEY:TEXT` and `N:delete:KEY` are made by others before the N-th call of the case
//!     head KEY                   probe KEY
//!     put KEY TEXT               get KEY ETAG FROM TO
//!     delete KEY                 list PREFIX AFTER MAX
//!     create KEY                 part UPLOAD NUMBER TEXT
//!     complete UPLOAD PARTS      abort UPLOAD
//!     again                      the bytes that the last get brought, once more
//!     mark                       how many entries stand in the history
//!     name TEXT                  whether the text is a name
//!     path TEXT                  how many names the path has, the name at each place up to the first that has none, whether
//!                                it is the root, and the key of a copy; or why the text is no path
//!     pattern SEED LENGTH AT     the length and the three bytes from place AT on, as they are filled in, and both of the whole
//!     options                    those that a mount has by default
//!
//! A TEXT, a PREFIX or an AFTER may be `-`, which stands for no bytes, and in the TEXT of a name or a path `~` stands for NUL.
//! The answer to a call of a bucket begins with the place of its entry. The items of a page are common prefixes, and objects as
//! KEY:ETAG:SIZE; a `+` says that more stand behind them. The first line of a case, an empty line and one that begins with `#`
//! are printed as they are. A line that can't be read, and one whose call no bucket allows, is printed behind a `?`.
#![tactic(auto)]

mod answers;
mod bench;
mod calls;
mod values;
mod words;

use bench::{Bench, play};
use std::io;
use std::io::Write;

fn play_all(rt: &HostRuntime, bench: &mut Bench, printed: &mut Vec<u8>) -> io::Result<()> {
    for line in rt.lines(rt.alloc()) {
        play(rt.alloc(), bench, line?.as_str(), printed)?;
    }
    Ok(())
}

fn main(rt: HostRuntime) -> io::Result<()> {
    let mut bench = Bench::new(rt.alloc())?;
    let mut printed = Vec::new(rt.alloc());
    let played = play_all(&rt, &mut bench, &mut printed);
    drop(bench);
    played?;
    io::writer(&rt).write_all(printed.as_slice())
}
