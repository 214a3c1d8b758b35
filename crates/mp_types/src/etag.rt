ghost use Rattle.std.specs.Prelude.{◌≡◌, ◌≤◌, List, ℕ, true, length, take, IsOk, IfOk, ◌↔◌, nat_eq};
ghost use Rattle.std.specs.Cmp.{partial_equiv_from_equiv};
ghost use Rattle.std.specs.Cmp.Lexicographic.{pointwise, nat_list_eq_equiv};
ghost use Rattle.std.specs.List.{list_all};
ghost use Rattle.mp_types.specs.ETag.{is_etag, is_etag_byte};

use crate::is_plain;
use std::marker::Model;
use thiserror::Error;

/// Why a text is no ETag.
#[derive(Debug, Drop, PartialEq, Eq, Error)]
pub enum ETagFault {
    #[error("an ETag has 1 to 64 printable bytes other than % and :")]
    Bad,
}

/// The tag that Amazon S3 gives the content of an object. It is kept in place, so a copy takes no memory.
#[derive(Debug, Drop)]
pub struct ETag {
    bytes: [u8; 64],
    len: usize,
}

impl Model for ETag {
    ghost use Rattle.std.specs.Prelude.{List, ℕ, ◌≡◌, ◌≤◌, true, take};
    ghost use Rattle.mp_types.specs.ETag.{is_etag};

    ghost Value = { List ℕ };

    ghost view = { λ a. take a.len a.bytes };

    ghost invariant = { λ a. (a.len ≤ 64) × (is_etag (take a.len a.bytes) ≡ true) };
}

fn is_allowed(byte: u8) -> bool
    ensures { result ≡ is_etag_byte byte }
{
    is_plain(byte) && byte != b':'
}

fn all_allowed(text: &[u8]) -> bool
    ensures { result ≡ list_all is_etag_byte text.now }
{
    text.iter().all(|byte| is_allowed(*byte))
}

fn are_allowed(text: &[u8]) -> bool
    ensures { result ≡ is_etag text.now }
{
    !text.is_empty() && text.len() <= 64 && all_allowed(text)
}

fn put_front(bytes: &mut [u8], text: &[u8])
    requires { length text.now ≤ length bytes.old }
    ensures { take (length text.now) bytes.new ≡ text.now }
{
    let len = text.len();
    let front = &mut bytes[..len];
    front.copy_from_slice(text);
}

impl ETag {
    /// The ETag of a text: 1 to 64 bytes, each from 0x21 to 0x7E other than `%` and `:`.
    pub fn parse(text: &str) -> Result<Self, ETagFault>
        ensures ok { IsOk result ↔ (is_etag text.now ≡ true) }
        ensures value { IfOk result (λ etag. etag ≡ text.now) }
    {
        let text = text.as_bytes();
        if !are_allowed(text) {
            return Err(ETagFault::Bad);
        }
        let mut bytes = [0u8; 64];
        put_front(&mut bytes, text);
        Ok(ETag {
            bytes,
            len: text.len(),
        })
    }

    /// The ETag's bytes, which are ASCII.
    pub fn as_bytes(&self) -> &[u8]
        ensures bytes { result.now ≡ self.now }
        ensures allowed { is_etag self.now ≡ true }
    {
        &self.bytes[..self.len]
    }

    /// An equal ETag. Takes no memory.
    pub fn copy(&self) -> Self
        ensures { result ≡ self.now }
    {
        ETag {
            bytes: self.bytes,
            len: self.len,
        }
    }
}

impl PartialEq for ETag {
    ghost eq = { pointwise nat_eq };

    ghost laws = { partial_equiv_from_equiv nat_list_eq_equiv };

    fn eq(&self, other: &ETag) -> bool {
        self.as_bytes() == other.as_bytes()
    }
}

impl Eq for ETag {
    ghost laws = { nat_list_eq_equiv };
}
