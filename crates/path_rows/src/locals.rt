ghost use Rattle.std.specs.Prelude.{◌≡◌, true, false};
ghost use Rattle.local_names.specs.Names.{is_name};

use crate::telling::{tell_answer, tell_counted, tell_file, tell_name};
use crate::words::{key, number, one, only_key, text_in, two};
use local_names::Locals;
use mp_rules::Local;
use mp_types::{Key, Text};
use std::alloc::{AllocError, Global};

// Whether nothing is local at a key.
fn is_free(names: &Locals, key: &Key) -> bool
    ensures { result ≡ true → is_name names.now key.now ≡ false }
{
    matches!(names.at(key.as_str()), Local::None)
}

// One more directory or file, where nothing is local yet.
fn add(names: &mut Locals, key: &Key, is_dir: bool) -> Result<bool, AllocError> {
    if !is_free(names, key) {
        return Ok(false);
    }
    if is_dir {
        names.add_dir(key)?;
    } else {
        names.add_file(key)?;
    }
    Ok(true)
}

/// One more directory or file.
pub fn make(
    alloc: Global,
    names: &mut Locals,
    is_dir: bool,
    words: &str,
    printed: &mut String,
) -> Option<()> {
    let key = key(alloc, one(words)?)?;
    let added = add(names, &key, is_dir);
    drop(key);
    printed
        .push_str(if added.ok()? { "done" } else { "taken" })
        .ok()
}

/// A file has this many bytes from now on.
pub fn resize(names: &mut Locals, words: &str, printed: &mut String) -> Option<()> {
    let (key, size) = two(words)?;
    let key = only_key(key)?;
    let size = number(size)?;
    match names.at(key) {
        Local::File { .. } => {
            names.resize(key, size);
            printed.push_str("done").ok()
        }
        Local::None | Local::Dir => printed.push_str("no file").ok(),
    }
}

/// A name is given up.
pub fn remove(names: &mut Locals, words: &str, printed: &mut String) -> Option<()> {
    let was = names.remove(only_key(words)?);
    tell_answer(printed, was).ok()
}

/// A file is given up.
pub fn unlink(names: &mut Locals, words: &str, printed: &mut String) -> Option<()> {
    names.remove_file(only_key(words)?);
    printed.push_str("done").ok()
}

/// The directories above a key are given up.
pub fn above(names: &mut Locals, words: &str, printed: &mut String) -> Option<()> {
    names.dirs_above(only_key(words)?);
    printed.push_str("done").ok()
}

/// What is local at a key.
pub fn at(names: &Locals, words: &str, printed: &mut String) -> Option<()> {
    match names.at(only_key(words)?) {
        Local::None => printed.push_str("none").ok(),
        Local::Dir => printed.push_str("dir").ok(),
        Local::File { size } => tell_counted(printed, "file:", size).ok(),
    }
}

/// Whether a name lies below a key.
pub fn has(names: &Locals, words: &str, printed: &mut String) -> Option<()> {
    tell_answer(printed, names.has_below(only_key(words)?)).ok()
}

fn tell_child(printed: &mut String, name: &str, local: Local) -> Result<(), AllocError> {
    match local {
        Local::None => tell_name(printed, " ?:", name),
        Local::Dir => tell_name(printed, " d:", name),
        Local::File { size } => tell_file(printed, " w:", size, name),
    }
}

fn tell_children(printed: &mut String, children: &[(Text, Local)]) -> Result<(), AllocError> {
    printed.push_str("names")?;
    for (name, local) in children {
        tell_child(printed, name.as_str(), *local)?;
    }
    Ok(())
}

/// The names in the directory of a prefix.
pub fn children(alloc: Global, names: &Locals, words: &str, printed: &mut String) -> Option<()> {
    let children = names.children(alloc, text_in(one(words)?)).ok()?;
    let told = tell_children(printed, children.as_slice());
    drop(children);
    told.ok()
}
