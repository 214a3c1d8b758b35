ghost use Rattle.std.specs.Prelude.{◌≡◌, ◌≢◌, ◌∷◌, ◌++◌, [], length, MatchOption, false};
ghost use Rattle.mp_script.specs.Words.{has, parts_of, has_empty};

use memchr::{memchr, memmem};

/// The bytes on either side of a separator.
#[derive(Clone, Copy)]
pub struct Parted<'a> {
    pub before: &'a [u8],
    pub after: &'a [u8],
}

/// Cuts the text at the first separator.
pub fn cut(text: &[u8], separator: u8) -> Option<Parted<'_>>
    ensures { MatchOption result (has separator text.now ≡ false) (λ p. (text.now ≡ p.before.now ++ separator ∷ p.after.now) × (has separator p.before.now ≡ false)) }
{
    match memchr(separator, text) {
        None => None,
        Some(at) => {
            let (before, rest) = text.split_at(at);
            Some(Parted {
                before,
                after: &rest[1..],
            })
        }
    }
}

/// The text as its only part.
pub fn one_part(text: &[u8], separator: u8) -> Option<&[u8]>
    ensures { MatchOption result (length (parts_of separator text.now) ≢ 1) (λ part. parts_of separator text.now ≡ part.now ∷ []) }
{
    match cut(text, separator) {
        None => Some(text),
        Some(_) => None,
    }
}

/// The text's only two parts.
pub fn two_parts(text: &[u8], separator: u8) -> Option<Parted<'_>>
    ensures { MatchOption result (length (parts_of separator text.now) ≢ 2) (λ p. parts_of separator text.now ≡ p.before.now ∷ p.after.now ∷ []) }
{
    match cut(text, separator) {
        None => None,
        Some(parted) => match one_part(parted.after, separator) {
            None => None,
            Some(second) => Some(Parted {
                before: parted.before,
                after: second,
            }),
        },
    }
}

/// The text's first part, and the two behind it, where there are no more.
pub fn three_parts(text: &[u8], separator: u8) -> Option<(&[u8], Parted<'_>)>
    ensures { MatchOption result (length (parts_of separator text.now) ≢ 3) (λ p. parts_of separator text.now ≡ p.0.now ∷ p.1.before.now ∷ p.1.after.now ∷ []) }
{
    match cut(text, separator) {
        None => None,
        Some(parted) => match two_parts(parted.after, separator) {
            None => None,
            Some(others) => Some((parted.before, others)),
        },
    }
}

/// Whether an empty word stands between spaces, or at an end.
pub fn has_empty_word(line: &[u8]) -> bool
    ensures { result ≡ has_empty line.now }
{
    if line.is_empty() {
        return true;
    }
    if line[0] == b' ' {
        return true;
    }
    if line[line.len() - 1] == b' ' {
        return true;
    }
    match memmem::find(line, b"  ") {
        None => false,
        Some(_) => true,
    }
}
