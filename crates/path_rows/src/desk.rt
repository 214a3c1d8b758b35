use crate::{facts, listing, locals, reads, rules, walk};
use dir_reader::DirReader;
use local_names::Locals;
use mp_rules::OwnFacts;
use std::alloc::{AllocError, Global};
use std::mem::replace;

/// What a case has made so far.
#[derive(Drop)]
pub struct Desk {
    names: Locals,
    facts: OwnFacts,
    reader: Option<DirReader>,
}

impl Desk {
    /// The desk at the begin of a case. Takes no memory.
    pub fn new(alloc: Global) -> Desk {
        Desk {
            names: Locals::new(alloc),
            facts: OwnFacts::new(alloc),
            reader: None,
        }
    }
}

// A call of `mp_rules`.
fn by_rules(
    alloc: Global,
    facts: &mut OwnFacts,
    verb: &str,
    words: &str,
    printed: &mut String,
) -> Option<()> {
    match verb {
        "key" => rules::key(alloc, words, printed),
        "below" => rules::is_below(words, printed),
        "hides" => rules::hides(words, printed),
        "order" => rules::order(words, printed),
        "same" => facts::same(alloc, words, printed),
        "know" => facts::know(alloc, facts, words, printed),
        _ => None,
    }
}

// A call of `local_names`.
fn by_names(
    alloc: Global,
    names: &mut Locals,
    verb: &str,
    words: &str,
    printed: &mut String,
) -> Option<()> {
    match verb {
        "mkdir" => locals::make(alloc, names, true, words, printed),
        "create" => locals::make(alloc, names, false, words, printed),
        "resize" => locals::resize(names, words, printed),
        "remove" => locals::remove(names, words, printed),
        "unlink" => locals::unlink(names, words, printed),
        "above" => locals::above(names, words, printed),
        "at" => locals::at(names, words, printed),
        "has" => locals::has(names, words, printed),
        "names" => locals::children(alloc, names, words, printed),
        _ => None,
    }
}

// A call of `superblock`, `dir_reader` or `mount_plan`, or the begin of a case.
fn by_desk(
    alloc: Global,
    desk: &mut Desk,
    verb: &str,
    words: &str,
    printed: &mut String,
) -> Option<()> {
    match verb {
        "=" => begin(alloc, desk, words, printed),
        "walk" => walk::walk(alloc, &desk.names, &desk.facts, words, printed),
        "read" => listing::read(alloc, &mut desk.reader, words, printed),
        "page" => listing::page(alloc, &mut desk.reader, words, printed),
        "next" => listing::next(&desk.reader, words, printed),
        "end" => listing::end(&mut desk.reader, &desk.names, words, printed),
        "asks" => reads::asks(alloc, &desk.names, words, printed),
        "answered" => reads::answered(alloc, &desk.names, words, printed),
        _ => None,
    }
}

// Prints the answer to a call. There is none where the words don't spell one.
fn answer(
    alloc: Global,
    desk: &mut Desk,
    verb: &str,
    words: &str,
    printed: &mut String,
) -> Option<()> {
    if let Some(()) = by_rules(alloc, &mut desk.facts, verb, words, printed) {
        return Some(());
    }
    if let Some(()) = by_names(alloc, &mut desk.names, verb, words, printed) {
        return Some(());
    }
    by_desk(alloc, desk, verb, words, printed)
}

fn begin(alloc: Global, desk: &mut Desk, name: &str, printed: &mut String) -> Option<()> {
    drop(replace(desk, Desk::new(alloc)));
    printed.push_str("= ").ok()?;
    printed.push_str(name).ok()
}

fn print_unread(printed: &mut String, line: &str) -> Result<(), AllocError> {
    printed.push_str("? ")?;
    printed.push_str(line)?;
    printed.push_str("\n")
}

fn print_as_it_is(printed: &mut String, line: &str) -> Result<(), AllocError> {
    printed.push_str(line)?;
    printed.push_str("\n")
}

/// Plays one line.
pub fn play(
    alloc: Global,
    desk: &mut Desk,
    line: &str,
    printed: &mut String,
) -> Result<(), AllocError> {
    if line.is_empty() || line.starts_with('#') {
        return print_as_it_is(printed, line);
    }
    let (verb, words) = line.split_once(' ').unwrap_or((line, ""));
    match answer(alloc, desk, verb, words, printed) {
        Some(()) => printed.push_str("\n"),
        None => print_unread(printed, line),
    }
}
