ghost use Rattle.std.specs.Prelude.{◌≤◌, IfSome};

use bytes::Bytes;
use mp_types::{ETag, Key, Text};
use std::alloc::{AllocError, Global};

/// The words of a text, between its separators.
pub fn words_of<'a>(
    alloc: Global,
    text: &'a str,
    separator: char,
) -> Result<Vec<&'a str>, AllocError> {
    text.split(separator).collect(alloc)
}

/// The text that a word gives.
pub fn text_in(word: &str) -> &str {
    if word == "-" { "" } else { word }
}

pub fn text(alloc: Global, word: &str) -> Option<Text> {
    Text::copy(alloc, text_in(word)).ok()
}

pub fn key(alloc: Global, word: &str) -> Option<Key> {
    Key::parse(alloc, word).ok()
}

pub fn etag(word: &str) -> Option<ETag> {
    ETag::parse(word).ok()
}

pub fn bytes(alloc: Global, word: &str) -> Option<Bytes> {
    Bytes::copy_from_slice(alloc, text_in(word).as_bytes()).ok()
}

pub fn number(word: &str) -> Option<u64> {
    word.parse::<u64>().ok()
}

/// A number that is at least `least` and at most `most`.
pub fn number_within(word: &str, least: u32, most: u32) -> Option<u32>
    ensures { IfSome result (λ number. (least ≤ number) × (number ≤ most)) }
{
    match word.parse::<u32>() {
        Ok(number) if number >= least && number <= most => Some(number),
        _ => None,
    }
}
