use std::alloc::{AllocError, Global};

/// The words of a text, between its separators.
pub fn words_of<'a>(
    alloc: Global,
    text: &'a str,
    separator: char,
) -> Result<Vec<&'a str>, AllocError> {
    text.split(separator).collect(alloc)
}

/// The text that a word gives.
pub fn text(word: &str) -> &str {
    if word == "-" { "" } else { word }
}

pub fn number(word: &str) -> Option<u64> {
    word.parse::<u64>().ok()
}

/// The number of a line.
pub fn line_number(word: &str) -> Option<u32> {
    word.parse::<u32>().ok()
}

/// A process, or the name of a handle.
pub fn name(word: &str) -> Option<u16> {
    word.parse::<u16>().ok()
}

/// The only argument.
pub fn only<'a>(arguments: &[&'a str]) -> Option<&'a str> {
    match arguments {
        [word] => Some(*word),
        _ => None,
    }
}
