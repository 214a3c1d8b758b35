ghost use Rattle.std.specs.Prelude.{◌<◌, length, IfSome};

use mp_types::{Key, Text};
use std::alloc::Global;

/// The text that a word gives.
pub fn text_in(word: &str) -> &str {
    if word == "-" { "" } else { word }
}

fn is_word(word: &str) -> bool {
    !word.is_empty() && !word.contains(' ')
}

/// The only word.
pub fn one(words: &str) -> Option<&str> {
    if is_word(words) { Some(words) } else { None }
}

/// Both words.
pub fn two(words: &str) -> Option<(&str, &str)> {
    let (first, second) = words.split_once(' ')?;
    if is_word(first) && is_word(second) {
        return Some((first, second));
    }
    None
}

/// The text of a key that is the only word.
pub fn only_key(words: &str) -> Option<&str>
    ensures { IfSome result (λ key. 0 < length key.now) }
{
    let key = text_in(one(words)?);
    if key.is_empty() { None } else { Some(key) }
}

pub fn key(alloc: Global, word: &str) -> Option<Key> {
    Key::parse(alloc, text_in(word)).ok()
}

/// The text of an item, where `%00` stands for a NUL.
pub fn item_text(alloc: Global, word: &str) -> Option<Text> {
    let text = text_in(word).replace(alloc, "%00", "\0").ok()?;
    Text::from_string(text).ok()
}

pub fn number(word: &str) -> Option<u64> {
    word.parse::<u64>().ok()
}

/// `yes` or `no`.
pub fn is_yes(word: &str) -> Option<bool> {
    match word {
        "yes" => Some(true),
        "no" => Some(false),
        _ => None,
    }
}
