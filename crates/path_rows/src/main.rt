//! Plays a table of calls against the rules of names and paths, and prints what each answers: the tests of `mp_rules`,
//! `local_names`, `superblock` and `dir_reader`, and of what `mount_plan` does for a read. A line of the table is one call
//! with its arguments in words, and its answer is one line of what is printed:
//!
//!     = NAME                          begins a case: nothing local, nothing known, and no listing
//!     key PATH                        the key of a path
//!     below KEY KEY                   whether the first lies below the second
//!     hides PROBE LOCAL BYTES         what stands at a name: by whether keys lie below it, what is local, and its object
//!     order NAME NAME                 the order of two names in a listing
//!     same QUESTION QUESTION          whether they are one question
//!     know QUESTION:ANSWER            one more answer; what is printed is all that is known
//!     mkdir KEY                       create KEY, for a file that is being written
//!     resize KEY BYTES                for such a file
//!     remove KEY                      unlink KEY, for a file alone
//!     above KEY                       gives up the directories above
//!     at KEY                          what is local at a key
//!     has KEY                         whether a local name lies below
//!     names PREFIX                    the local names in the directory of a prefix
//!     walk PATH [QUESTION:ANSWER]     what stands at a path by what is known and local; the answer stands apart from the others
//!     read PATH                       begins a listing
//!     page last|more ITEM..           one more page of it: an item is `o:BYTES:KEY` or `p:PREFIX`
//!     next MAX                        its next call
//!     end                             its names, with the local ones
//!     asks OFFSET COUNT               what a read of an object of 10 bytes does before its call
//!     answered REPLY                  what one of 3 bytes does by the reply to its call: `bytes`, `changed`, `missing`, `fault`,
//!                                     or `lack`, where there was no memory
//!
//! PROBE is `yes` or `no`. A QUESTION is `head:KEY` or `probe:KEY`, and its ANSWER is `yes`, `no`, `missing` or the number of
//! an object's bytes. LOCAL is `none`, `dir` or `file:BYTES`, and BYTES may be `none` where no object stands. Names are told
//! as in a record: `d:NAME` for a directory, `f:BYTES:NAME` for an object, and `w:BYTES:NAME` for a file that is being
//! written. `-` stands for the text of no bytes, and `%00` for a NUL in an item.
//!
//! An empty line, and one that begins with `#`, is printed as it is. One that can't be read is printed behind a `?`.
#![tactic(auto)]

mod desk;
mod facts;
mod listing;
mod locals;
mod reads;
mod rules;
mod telling;
mod walk;
mod words;

use desk::{Desk, play};
use std::io;

fn play_all(rt: &HostRuntime, desk: &mut Desk, printed: &mut String) -> io::Result<()> {
    for line in rt.lines(rt.alloc()) {
        play(rt.alloc(), desk, line?.as_str(), printed)?;
    }
    Ok(())
}

fn main(rt: HostRuntime) -> io::Result<()> {
    let mut desk = Desk::new(rt.alloc());
    let mut printed = String::new(rt.alloc());
    let played = play_all(&rt, &mut desk, &mut printed);
    drop(desk);
    played?;
    print!(rt; "{}", printed.as_str())
}
