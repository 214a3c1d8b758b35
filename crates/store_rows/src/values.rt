ghost use Rattle.std.specs.Prelude.{◌+◌, ◌≤◌, length};
ghost use Rattle.mp_types.specs.Content.{bytes_of};

use crate::answers::{print_number, print_text, say, say_number};
use crate::words::{number, number_within, text_in};
use mp_types::{Data, FilePath, Opts, PathFault, is_name};
use std::alloc::{AllocError, Global};

fn add_characters(text: &mut String, word: &str) -> Result<(), AllocError> {
    for character in word.chars() {
        text.push(if character == '~' { '\0' } else { character })?;
    }
    Ok(())
}

fn say_flag(printed: &mut Vec<u8>, name: &[u8], is_so: bool) -> Result<(), AllocError> {
    say(printed, name)?;
    say(
        printed,
        if is_so {
            b"yes".as_slice()
        } else {
            b"no".as_slice()
        },
    )
}

fn print_is_name(text: &str, printed: &mut Vec<u8>) -> Result<(), AllocError> {
    print_text(
        printed,
        if is_name(text) {
            b"yes".as_slice()
        } else {
            b"no".as_slice()
        },
    )
}

fn print_names(path: &FilePath, printed: &mut Vec<u8>) -> Result<(), AllocError> {
    print_number(printed, path.len() as u64)?;
    for place in 0..=path.len() {
        match path.name_at(place) {
            Some(name) => say(printed, name.as_bytes())?,
            None => say(printed, b".")?,
        }
    }
    say_flag(printed, b"root", path.is_root())
}

fn say_key(path: &FilePath, printed: &mut Vec<u8>) -> Result<(), AllocError> {
    say(printed, b"key ")?;
    print_text(printed, path.as_key().as_bytes())
}

fn print_path(path: &FilePath, printed: &mut Vec<u8>) -> Result<(), AllocError> {
    print_names(path, printed)?;
    let shared = path.share()?;
    let done = say_key(&shared, printed);
    drop(shared);
    done
}

fn print_fault(fault: &PathFault, printed: &mut Vec<u8>) -> Result<(), AllocError> {
    match fault {
        PathFault::Empty => print_text(printed, b"empty"),
        PathFault::TooLong => print_text(printed, b"too long"),
        PathFault::BadName(place) => {
            print_text(printed, b"bad name")?;
            say_number(printed, *place as u64)
        }
        PathFault::Memory => print_text(printed, b"no memory"),
    }
}

fn print_parsed(alloc: Global, text: &str, printed: &mut Vec<u8>) -> Result<(), AllocError> {
    match FilePath::parse(alloc, text) {
        Ok(path) => {
            let done = print_path(&path, printed);
            drop(path);
            done
        }
        Err(fault) => {
            let done = print_fault(&fault, printed);
            drop(fault);
            done
        }
    }
}

fn say_bytes(bytes: &[u8], printed: &mut Vec<u8>) -> Result<(), AllocError> {
    for byte in bytes {
        say_number(printed, u64::from(*byte))?;
    }
    Ok(())
}

// The three bytes from a place on, as they are filled in.
fn say_filled(data: &Data, at: u64, printed: &mut Vec<u8>) -> Result<(), AllocError>
    requires { at + 3 ≤ length (bytes_of data.now) }
{
    let mut three = [0u8; 3];
    data.fill(at, &mut three);
    say_bytes(&three, printed)
}

// How many bytes there are in all, and the same three among them.
fn say_whole(whole: &[u8], at: u64, printed: &mut Vec<u8>) -> Result<(), AllocError>
    requires { at + 3 ≤ length whole.now }
{
    say_number(printed, whole.len() as u64)?;
    let start = at as usize;
    say_bytes(&whole[start..start + 3], printed)
}

fn print_data(alloc: Global, data: &Data, at: u64, printed: &mut Vec<u8>) -> Result<(), AllocError>
    requires { at + 3 ≤ length (bytes_of data.now) }
{
    print_number(printed, data.len())?;
    say_filled(data, at, printed)?;
    let whole = data.to_vec(alloc)?;
    let done = say_whole(whole.as_slice(), at, printed);
    drop(whole);
    done
}

fn print_three(
    alloc: Global,
    data: &Data,
    at: u64,
    printed: &mut Vec<u8>,
) -> Option<Result<(), AllocError>> {
    let length = data.len();
    if length < 3 || at > length - 3 {
        return None;
    }
    Some(print_data(alloc, data, at, printed))
}

fn print_pattern(
    alloc: Global,
    seed: &str,
    length: &str,
    at: &str,
    printed: &mut Vec<u8>,
) -> Option<Result<(), AllocError>> {
    let seed = number_within(seed, 0, u32::MAX)?;
    let length = number(length)?;
    let at = number(at)?;
    let data = Data::Pattern { seed, length };
    let done = print_three(alloc, &data, at, printed);
    drop(data);
    done
}

fn print_options(options: &Opts, printed: &mut Vec<u8>) -> Result<(), AllocError> {
    print_text(printed, b"part")?;
    say_number(printed, options.part)?;
    say(printed, b"page")?;
    say_number(printed, u64::from(options.page))?;
    say_flag(printed, b"delete", options.allow_delete)?;
    say_flag(printed, b"overwrite", options.allow_overwrite)
}

fn print_of_text(
    alloc: Global,
    verb: &str,
    word: &str,
    printed: &mut Vec<u8>,
) -> Result<(), AllocError> {
    let mut text = String::new(alloc);
    let done = match add_characters(&mut text, text_in(word)) {
        Ok(()) if verb == "name" => print_is_name(text.as_str(), printed),
        Ok(()) => print_parsed(alloc, text.as_str(), printed),
        Err(error) => Err(error),
    };
    drop(text);
    done
}

/// Prints the answer to a line about a value, if it is one.
pub fn print_value(
    alloc: Global,
    verb: &str,
    arguments: &[&str],
    printed: &mut Vec<u8>,
) -> Option<Result<(), AllocError>> {
    match arguments {
        [word] if verb == "name" || verb == "path" => {
            Some(print_of_text(alloc, verb, *word, printed))
        }
        [seed, length, at] if verb == "pattern" => {
            print_pattern(alloc, *seed, *length, *at, printed)
        }
        [] if verb == "options" => Some(print_options(&Opts::default(), printed)),
        _ => None,
    }
}
