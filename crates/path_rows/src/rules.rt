use crate::telling::{tell_answer, tell_counted, tell_text};
use crate::words::{is_yes, number, one, text_in, two};
use mp_rules::{Kind, Local, below, entry_of, key_of, name_order};
use mp_types::{FilePath, PathFault};
use std::alloc::{AllocError, Global};
use std::cmp::Ordering;

fn tell_key(path: &FilePath, printed: &mut String) -> Result<(), AllocError> {
    let key = key_of(path)?;
    let told = tell_text(printed, key.as_str());
    drop(key);
    told
}

/// Tells why a text is no path.
pub fn tell_fault(printed: &mut String, why: PathFault) -> Result<(), AllocError> {
    match why {
        PathFault::Empty => printed.push_str("no slash in front"),
        PathFault::TooLong => printed.push_str("too long"),
        PathFault::BadName(place) => tell_counted(printed, "no name at ", place as u64),
        PathFault::Memory => Err(AllocError),
    }
}

/// The key of a path.
pub fn key(alloc: Global, words: &str, printed: &mut String) -> Option<()> {
    match FilePath::parse(alloc, text_in(one(words)?)) {
        Ok(path) => {
            let told = tell_key(&path, printed);
            drop(path);
            told.ok()
        }
        Err(why) => tell_fault(printed, why).ok(),
    }
}

/// Whether a key lies below another one.
pub fn is_below(words: &str, printed: &mut String) -> Option<()> {
    let (key, above) = two(words)?;
    tell_answer(printed, below(text_in(key), text_in(above))).ok()
}

// What a word says is local.
fn local(word: &str) -> Option<Local> {
    match word {
        "none" => Some(Local::None),
        "dir" => Some(Local::Dir),
        file => Some(Local::File {
            size: number(file.strip_prefix("file:")?)?,
        }),
    }
}

// The size of an object, if a word gives one.
fn object(word: &str) -> Option<Option<u64>> {
    if word == "none" {
        return Some(None);
    }
    Some(Some(number(word)?))
}

fn tell_kind(printed: &mut String, kind: Kind) -> Result<(), AllocError> {
    printed.push_str(match kind {
        Kind::RemoteDir => "remote dir",
        Kind::LocalDir => "local dir",
        Kind::LocalFile => "local file",
        Kind::RemoteFile => "remote file",
        Kind::Nothing => "nothing",
    })
}

/// What stands at a name.
pub fn hides(words: &str, printed: &mut String) -> Option<()> {
    let (probe, others) = words.split_once(' ')?;
    let (own, head) = two(others)?;
    let kind = entry_of(is_yes(probe)?, local(own)?, object(head)?);
    tell_kind(printed, kind).ok()
}

/// The order of two names.
pub fn order(words: &str, printed: &mut String) -> Option<()> {
    let (a, b) = two(words)?;
    printed
        .push_str(match name_order(text_in(a), text_in(b)) {
            Ordering::Less => "less",
            Ordering::Equal => "equal",
            Ordering::Greater => "greater",
        })
        .ok()
}
