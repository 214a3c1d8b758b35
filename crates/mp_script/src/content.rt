ghost use Rattle.std.specs.Prelude.{◌≡◌};
ghost use Rattle.hex.specs.Hex.{decode_of};
ghost use Rattle.mp_script.specs.ScriptText.{literal_of, hex_of, pattern_of, content_of};
ghost use Rattle.mp_script.specs.Reads.{Gives};
ghost use Rattle.mp_script.specs.Words.{parts_of};

use crate::cause::ScriptCause;
use crate::cut::two_parts;
use crate::escape::escaped_bytes;
use crate::fault::Fault;
use crate::word::{MAX_NUMBER, number_up_to};
use hex::FromHexError;
use mp_types::{Data, Items};
use std::alloc::Global;

fn literal(alloc: Global, word: &[u8]) -> Result<Data, Fault>
    ensures { Gives (λ content. content) result (literal_of word.now) }
{
    let bytes = escaped_bytes(alloc, word)?;
    Ok(Data::Literal(Items::from_vec(bytes)))
}

fn hexadecimal(alloc: Global, word: &[u8]) -> Result<Data, Fault>
    ensures { Gives (λ content. content) result (hex_of (decode_of word.now)) }
{
    match hex::decode(alloc, word) {
        Ok(bytes) => Ok(Data::Literal(Items::from_vec(bytes))),
        Err(FromHexError::OutOfMemory) => Err(Fault::Memory),
        Err(_) => Err(Fault::Cause(ScriptCause::Data)),
    }
}

fn pattern(word: &[u8]) -> Result<Data, ScriptCause>
    ensures { result ≡ pattern_of (parts_of 58 word.now) }
{
    let parted = two_parts(word, b':').ok_or(ScriptCause::Data)?;
    let seed = number_up_to(parted.before, 4_294_967_295).ok_or(ScriptCause::Data)?;
    let length = number_up_to(parted.after, MAX_NUMBER).ok_or(ScriptCause::Data)?;
    Ok(Data::Pattern {
        seed: seed as u32,
        length,
    })
}

/// The bytes that a word gives. Those of a pattern are written out by none but their users.
pub fn content(alloc: Global, word: &[u8]) -> Result<Data, Fault>
    ensures { Gives (λ content. content) result (content_of word.now) }
{
    match word {
        [b't', text @ ..] => literal(alloc, text),
        [b'x', digits @ ..] => hexadecimal(alloc, digits),
        [b'g', numbers @ ..] => Ok(pattern(numbers)?),
        _ => Err(Fault::Cause(ScriptCause::Data)),
    }
}
