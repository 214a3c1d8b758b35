ghost use Rattle.std.specs.Prelude.{◌≡◌, ◌<◌, ◌≤◌, ◌↔◌, length, IfOk, IsErrOf, nat_eq};
ghost use Rattle.std.specs.Cmp.{partial_equiv_from_equiv};
ghost use Rattle.std.specs.Cmp.Lexicographic.{pointwise, nat_list_eq_equiv};
ghost use Rattle.mp_types.specs.Key.{IsKeyText, max_key_length};

use crate::Text;
use std::alloc::{AllocError, Global};
use std::marker::Model;
use thiserror::Error;

/// A key has at most so many bytes, as Amazon S3 says, and so does what stands behind the first `/` of a path.
pub const MAX_KEY_LENGTH: usize = 1_024;

/// Why a text is no key.
#[derive(Debug, Drop, PartialEq, Eq, Error)]
pub enum KeyFault {
    #[error("a key is not empty")]
    Empty,
    #[error("a key has at most 1,024 bytes")]
    TooLong,
    #[error("no memory")]
    Memory,
}

/// The key of an object: UTF-8 text of 1 to 1,024 bytes, as Amazon S3 allows.
#[derive(Debug, Drop)]
pub struct Key {
    text: Text,
}

impl Model for Key {
    ghost use Rattle.std.specs.Prelude.{List, ℕ};
    ghost use Rattle.mp_types.specs.Key.{IsKeyText};

    ghost Value = { List ℕ };

    ghost view = { λ a. a.text };

    ghost invariant = { λ a. IsKeyText a.text };
}

impl Key {
    /// The key of a text. Each fault but want of memory comes exactly for its texts.
    pub fn parse(alloc: Global, text: &str) -> Result<Self, KeyFault>
        ensures ok { IfOk result (λ key. (key ≡ text.now) × IsKeyText text.now) }
        ensures empty { (IsErrOf result KeyFault.Empty) ↔ (length text.now ≡ 0) }
        ensures too_long { (IsErrOf result KeyFault.TooLong) ↔ (max_key_length < length text.now) }
    {
        if text.is_empty() {
            return Err(KeyFault::Empty);
        }
        if text.len() > MAX_KEY_LENGTH {
            return Err(KeyFault::TooLong);
        }
        match Key::of(alloc, text) {
            Ok(key) => Ok(key),
            Err(_) => Err(KeyFault::Memory),
        }
    }

    /// The key of a text that is as long as a key may be.
    pub fn of(alloc: Global, text: &str) -> Result<Self, AllocError>
        requires { IsKeyText text.now }
        ensures { IfOk result (λ key. key ≡ text.now) }
    {
        Ok(Key {
            text: Text::copy(alloc, text)?,
        })
    }

    /// The key of a text that is as long as a key may be. Takes no memory.
    pub fn from_text(text: Text) -> Self
        requires { IsKeyText text }
        ensures { result ≡ text }
    {
        Key { text }
    }

    /// The key's text.
    pub fn as_text(&self) -> &Text
        ensures text { result.now ≡ self.now }
        ensures key { IsKeyText self.now }
    {
        &self.text
    }

    /// The key's text. Takes no memory.
    pub fn into_text(self) -> Text
        ensures text { result ≡ self }
        ensures key { IsKeyText self }
    {
        self.text
    }

    /// The key's text.
    pub fn as_str(&self) -> &str
        ensures text { result.now ≡ self.now }
        ensures key { IsKeyText self.now }
    {
        self.text.as_str()
    }

    /// The same key for one more owner of its text. Takes no memory: an error says that there are too many owners.
    pub fn share(&self) -> Result<Self, AllocError>
        ensures { IfOk result (λ shared. shared ≡ self.now) }
    {
        Ok(Key {
            text: self.text.share()?,
        })
    }
}

impl PartialEq for Key {
    ghost eq = { pointwise nat_eq };

    ghost laws = { partial_equiv_from_equiv nat_list_eq_equiv };

    fn eq(&self, other: &Key) -> bool {
        self.text == other.text
    }
}

impl Eq for Key {
    ghost laws = { nat_list_eq_equiv };
}
