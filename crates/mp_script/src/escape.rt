ghost use Rattle.std.specs.Prelude.{◌≡◌, ◌<◌, ◌++◌, ◌&&◌, length, true, false, Err, IfOk, MatchOption, MatchResult, string_bytes};
ghost use Rattle.std.specs.List.{list_all};
ghost use Rattle.hex.specs.Hex.{is_hex_digit};
ghost use Rattle.mp_script.specs.ScriptText as script;
ghost use Rattle.mp_script.specs.ScriptText.{onto, spelled, text_of};
ghost use Rattle.mp_script.specs.Reads.{Gives};
ghost use Rattle.mp_script.specs.Words.{has, put_in_front};

use crate::cause::ScriptCause;
use crate::fault::Fault;
use hex::FromHex;
use memchr::memchr;
use std::alloc::Global;

fn stands_for_itself(byte: u8) -> bool
    ensures { result ≡ script.stands_for_itself byte }
{
    byte > b' ' && byte != b'%' && byte != 0x7f
}

// It looks at all bytes, without a way out, so that many are compared at once.
fn all_stand(text: &[u8]) -> bool
    ensures { result ≡ list_all script.stands_for_itself text.now }
{
    let mut all = true;
    for byte in text {
        all &= stands_for_itself(*byte);
    }
    all
}

// The text in front of its first escape, and the rest.
fn cut_at_escape(text: &[u8]) -> (&[u8], &[u8])
    ensures whole { text.now ≡ result.0.now ++ result.1.now }
    ensures none { has 37 result.0.now ≡ false }
{
    text.split_at(memchr(b'%', text).unwrap_or(text.len()))
}

// The byte of two hexadecimal digits.
fn byte_of(high: u8, low: u8) -> Option<u8>
    ensures { MatchOption result ((is_hex_digit high && is_hex_digit low) ≡ false) (λ byte. ((is_hex_digit high && is_hex_digit low) ≡ true) × (byte ≡ spelled high low)) }
{
    match <[u8; 1]>::from_hex([high, low]) {
        Ok(bytes) => Some(bytes[0]),
        Err(_) => None,
    }
}

// The first byte that escaped text stands for, and the text behind it.
fn first_byte(text: &[u8]) -> Result<(u8, &[u8]), ScriptCause>
    requires { 0 < length text.now }
    ensures byte { MatchResult result (λ p. script.unescaped text.now ≡ onto p.0 (script.unescaped p.1.now)) (λ cause. script.unescaped text.now ≡ Err cause) }
    ensures shorter { IfOk result (λ p. length p.1.now < length text.now) }
{
    match text {
        [byte, after @ ..] if stands_for_itself(*byte) => Ok((*byte, after)),
        [b'%', high, low, after @ ..] => match byte_of(*high, *low) {
            Some(byte) => Ok((byte, after)),
            None => Err(ScriptCause::Escape),
        },
        _ => Err(ScriptCause::Escape),
    }
}

// Adds what escaped text stands for.
fn push_unescaped(bytes: &mut Vec<u8>, text: &[u8]) -> Result<(), Fault>
    ensures { Gives (λ _. bytes.new.items) result (put_in_front bytes.old.items (script.unescaped text.now)) }
{
    let mut rest = text;
    while !rest.is_empty() {
        let (byte, after) = first_byte(rest)?;
        bytes.push(byte)?;
        rest = after;
    }
    Ok(())
}

// What escaped text stands for. What is in front of its first escape is copied as a whole.
fn unescaped(alloc: Global, text: &[u8]) -> Result<Vec<u8>, Fault>
    ensures { Gives (λ v. v.items) result (script.unescaped text.now) }
{
    let (front, rest) = cut_at_escape(text);
    if !all_stand(front) {
        return Err(Fault::Cause(ScriptCause::Escape));
    }
    let mut bytes = Vec::with_capacity(alloc, text.len())?;
    bytes.extend_from_slice(front)?;
    match push_unescaped(&mut bytes, rest) {
        Ok(()) => Ok(bytes),
        Err(fault) => {
            drop(bytes);
            Err(fault)
        }
    }
}

/// What an escaped word stands for.
pub fn escaped_bytes(alloc: Global, word: &[u8]) -> Result<Vec<u8>, Fault>
    ensures { Gives (λ v. v.items) result (script.escaped_bytes word.now) }
{
    if word == b"%".as_slice() {
        return Ok(Vec::new(alloc));
    }
    unescaped(alloc, word)
}

/// The text that an escaped word stands for.
pub fn text(alloc: Global, word: &[u8]) -> Result<String, Fault>
    ensures { Gives string_bytes result (text_of word.now) }
{
    match String::from_utf8(escaped_bytes(alloc, word)?) {
        Ok(text) => Ok(text),
        Err(error) => {
            drop(error);
            Err(Fault::Cause(ScriptCause::Utf8))
        }
    }
}
