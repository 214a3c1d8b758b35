use crate::facts::{known, tell_question};
use crate::rules::tell_fault;
use crate::telling::tell_counted;
use crate::words::{one, text_in, two};
use local_names::Locals;
use mp_rules::{Entry, Known, OwnFacts};
use mp_types::{Errno, below_root};
use std::alloc::{AllocError, Global};
use superblock::{Decision, decide};

fn tell_entry(printed: &mut String, entry: &Entry) -> Result<(), AllocError> {
    match entry {
        Entry::RemoteDir => printed.push_str("remote dir"),
        Entry::LocalDir => printed.push_str("local dir"),
        Entry::LocalFile { size } => tell_counted(printed, "writing ", *size),
        Entry::File { size, .. } => tell_counted(printed, "file ", *size),
        Entry::Nothing => printed.push_str("nothing"),
    }
}

/// Tells an error.
pub fn tell_refusal(printed: &mut String, errno: Errno) -> Result<(), AllocError> {
    match errno {
        Errno::Enoent => printed.push_str("ENOENT"),
        Errno::Enotdir => printed.push_str("ENOTDIR"),
        Errno::Estale => printed.push_str("ESTALE"),
        Errno::Eio => printed.push_str("EIO"),
        Errno::Enomem => printed.push_str("ENOMEM"),
        other => tell_counted(printed, "error ", other.number() as u64),
    }
}

fn tell(printed: &mut String, decision: &Decision<'_>) -> Result<(), AllocError> {
    match decision {
        Decision::Ask(asked) => {
            printed.push_str("ask ")?;
            tell_question(printed, *asked)
        }
        Decision::Is(entry) => tell_entry(printed, entry),
        Decision::Refused(errno) => tell_refusal(printed, *errno),
    }
}

// What stands at a path, with the last fact apart.
fn walk_by(
    path: &str,
    names: &Locals,
    facts: &OwnFacts,
    last: Option<&Known>,
    printed: &mut String,
) -> Result<(), AllocError> {
    match below_root(path) {
        Ok("") => printed.push_str("root"),
        Ok(below) => {
            let decision = decide(below, names, facts, last);
            let told = tell(printed, &decision);
            drop(decision);
            told
        }
        Err(why) => tell_fault(printed, why),
    }
}

/// What stands at a path.
pub fn walk(
    alloc: Global,
    names: &Locals,
    facts: &OwnFacts,
    words: &str,
    printed: &mut String,
) -> Option<()> {
    match two(words) {
        None => walk_by(text_in(one(words)?), names, facts, None, printed).ok(),
        Some((path, last)) => {
            let last = known(alloc, last)?;
            let told = walk_by(text_in(path), names, facts, Some(&last), printed);
            drop(last);
            told.ok()
        }
    }
}
