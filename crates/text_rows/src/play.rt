use crate::script::read;
use crate::sink;
use crate::spelled::{push_copies, push_spelled};
use std::alloc::{AllocError, Global};

// Prints what is told of a line. None where the line isn't one of the table.
fn answer(
    alloc: Global,
    script: &mut Vec<u8>,
    verb: &str,
    words: &str,
    printed: &mut Vec<u8>,
) -> Option<()> {
    match verb {
        "|" => push_copies(script, 1, words),
        "*" => {
            let (count, line) = words.split_once(' ')?;
            push_copies(script, count.parse::<usize>().ok()?, line)
        }
        ">" => {
            push_spelled(script, words)?;
            read(alloc, script, printed)
        }
        "." if words.is_empty() => read(alloc, script, printed),
        "write" => sink::write(alloc, words, printed),
        "print" => sink::print(alloc, words, printed),
        _ => None,
    }
}

fn print_as_it_is(printed: &mut Vec<u8>, line: &str) -> Result<(), AllocError> {
    printed.extend_from_slice(line.as_bytes())?;
    printed.extend_from_slice(b"\n")
}

/// Plays one line.
pub fn play(
    alloc: Global,
    script: &mut Vec<u8>,
    line: &str,
    printed: &mut Vec<u8>,
) -> Result<(), AllocError> {
    if line.is_empty() || line.starts_with('#') {
        return print_as_it_is(printed, line);
    }
    if line.starts_with("= ") {
        script.clear();
        return print_as_it_is(printed, line);
    }
    let (verb, words) = line.split_once(' ').unwrap_or((line, ""));
    match answer(alloc, script, verb, words, printed) {
        Some(()) => Ok(()),
        None => {
            printed.extend_from_slice(b"? ")?;
            print_as_it_is(printed, line)
        }
    }
}
