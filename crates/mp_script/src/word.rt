ghost use Rattle.std.specs.Prelude.{◌≡◌, ◌-◌, ◌^◌, ◌<◌, ◌≤◌, min, true, false, IfSome, MatchOption};
ghost use Rattle.std.specs.List.{list_all};
ghost use Rattle.mp_script.specs.ScriptText.{is_digit, is_number, number_of, actor_of, handle_word, number_word, key_of, path_word};
ghost use Rattle.mp_script.specs.Reads.{Gives};
ghost use Rattle.mp_script.specs.Words.{is_number_up_to};

use crate::cause::ScriptCause;
use crate::escape;
use crate::fault::Fault;
use mount_model::AskedPath;
use mp_types::{FilePath, Key, KeyFault, PathFault};
use std::alloc::Global;

fn is_decimal_digit(byte: u8) -> bool
    ensures { result ≡ is_digit byte }
{
    byte >= b'0' && byte <= b'9'
}

fn are_digits(word: &[u8]) -> bool
    ensures { result ≡ list_all is_digit word.now }
{
    word.iter().all(|byte| is_decimal_digit(*byte))
}

fn is_decimal(word: &[u8]) -> bool
    ensures { result ≡ is_number word.now }
{
    !word.is_empty() && word.len() <= 40 && are_digits(word)
}

// The number that digits spell, or the greatest `u64` where it is greater.
fn capped_number(digits: &[u8]) -> u64
    ensures { result ≡ min (2 ^ 64 - 1) (number_of digits.now) }
{
    let mut number = 0u64;
    for digit in digits {
        let value = u64::from((*digit).saturating_sub(b'0'));
        number = number.saturating_mul(10).saturating_add(value);
    }
    number
}

/// The number that a word spells, where it has at most 40 digits and is at most the greatest.
pub fn number_up_to(word: &[u8], greatest: u64) -> Option<u64>
    requires { greatest < 2 ^ 64 - 1 }
    ensures value { MatchOption result (is_number_up_to greatest word.now ≡ false) (λ number. (is_number_up_to greatest word.now ≡ true) × (number ≡ number_of word.now)) }
    ensures small { IfSome result (λ number. number ≤ greatest) }
{
    if !is_decimal(word) {
        return None;
    }
    let number = capped_number(word);
    if number > greatest {
        return None;
    }
    Some(number)
}

/// The actor that a word spells: 0 for the others, 1 to 999 for a process.
pub fn actor(word: &[u8]) -> Result<u16, ScriptCause>
    ensures { result ≡ actor_of word.now }
{
    match number_up_to(word, 999) {
        Some(number) => Ok(number as u16),
        None => Err(ScriptCause::Actor),
    }
}

/// The number of a handle that a word spells, up to 65,535.
pub fn handle(word: &[u8]) -> Result<u16, ScriptCause>
    ensures { result ≡ handle_word word.now }
{
    match number_up_to(word, 65_535) {
        Some(number) => Ok(number as u16),
        None => Err(ScriptCause::Handle),
    }
}

/// An offset, a count, or the length of a pattern is at most this.
pub const MAX_NUMBER: u64 = 9_223_372_036_854_775_807;

/// The offset or the count that a word spells, less than 2^63.
pub fn number(word: &[u8]) -> Result<u64, ScriptCause>
    ensures { result ≡ number_word word.now }
{
    match number_up_to(word, MAX_NUMBER) {
        Some(number) => Ok(number),
        None => Err(ScriptCause::Number),
    }
}

/// The key that an escaped word stands for, of 1 to 1,024 bytes.
pub fn key(alloc: Global, word: &[u8]) -> Result<Key, Fault>
    ensures { Gives (λ key. key) result (key_of word.now) }
{
    let text = escape::text(alloc, word)?;
    let parsed = Key::parse(alloc, text.as_str());
    drop(text);
    match parsed {
        Ok(key) => Ok(key),
        Err(KeyFault::Memory) => Err(Fault::Memory),
        Err(KeyFault::Empty | KeyFault::TooLong) => Err(Fault::Cause(ScriptCause::Key)),
    }
}

/// The path that an escaped word stands for, or why its text is none.
pub fn path(alloc: Global, word: &[u8]) -> Result<AskedPath, Fault>
    ensures { Gives (λ path. path) result (path_word word.now) }
{
    let text = escape::text(alloc, word)?;
    let parsed = FilePath::parse(alloc, text.as_str());
    drop(text);
    match parsed {
        Ok(path) => Ok(Ok(path)),
        Err(why) => match why {
            PathFault::Memory => Err(Fault::Memory),
            PathFault::Empty => Ok(Err(PathFault::Empty)),
            PathFault::TooLong => Ok(Err(PathFault::TooLong)),
            PathFault::BadName(place) => Ok(Err(PathFault::BadName(place))),
        },
    }
}
