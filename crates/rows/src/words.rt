use std::alloc::AllocError;
use std::str;

/// The number that a text spells.
pub fn number_of(text: &[u8]) -> Option<u64> {
    match str::from_utf8(text) {
        Ok(text) => text.parse::<u64>().ok(),
        Err(_) => None,
    }
}

/// Adds the numbers that a text spells between commas, of which an empty text has none.
/// Whether each is one.
pub fn push_numbers(numbers: &mut Vec<u64>, text: &[u8]) -> Result<bool, AllocError> {
    if text.is_empty() {
        return Ok(true);
    }
    for word in text.split(|byte| *byte == b',') {
        match number_of(word) {
            Some(number) => numbers.push(number)?,
            None => return Ok(false),
        }
    }
    Ok(true)
}
