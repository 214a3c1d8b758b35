ghost use Rattle.std.specs.Prelude.{◌≡◌, ◌++◌, [], false, take, IfOk, IsCharBoundary, MatchOption, Some, refl, nat_eq, string_bytes};
ghost use Rattle.std.specs.List.{starts_with};
ghost use Rattle.std.specs.Ordering.{nat_cmp};
ghost use Rattle.std.specs.Cmp.{partial_equiv_from_equiv};
ghost use Rattle.std.specs.Cmp.Lexicographic.{pointwise, slice_cmp, nat_list_cmp_total, nat_list_eq_equiv, texts_po, texts_ties};

use bytes::ByteStr;
use std::alloc::{AllocError, Global};
use std::cmp::Ordering;
use std::marker::Model;

/// UTF-8 text of any length, ordered by its bytes. Several owners share the bytes, so that one more of them costs the
/// same for any length.
#[derive(Debug, Drop)]
pub struct Text {
    text: ByteStr,
}

impl Model for Text {
    ghost use Rattle.std.specs.Prelude.{List, ℕ};

    ghost Value = { List ℕ };

    ghost view = { λ a. a.text };
}

impl Text {
    /// A text of these bytes, which are copied.
    pub fn copy(alloc: Global, text: &str) -> Result<Self, AllocError>
        ensures { IfOk result (λ copied. copied ≡ text.now) }
    {
        Ok(Text {
            text: ByteStr::copy_from_str(alloc, text)?,
        })
    }

    /// A text of no bytes. Takes no memory.
    pub fn new() -> Self
        ensures { result ≡ [] }
    {
        Text {
            text: ByteStr::new(),
        }
    }

    /// The text of a string. No byte is copied.
    pub fn from_string(text: String) -> Result<Self, AllocError>
        ensures { IfOk result (λ made. made ≡ string_bytes text) }
    {
        Ok(Text {
            text: ByteStr::from_string(text)?,
        })
    }

    /// The same text for one more owner. Takes no memory: an error says that there are too many owners.
    pub fn share(&self) -> Result<Self, AllocError>
        ensures { IfOk result (λ shared. shared ≡ self.now) }
    {
        Ok(Text {
            text: self.text.clone()?,
        })
    }

    /// The text up to this place, which shares the bytes. Takes no memory: an error says that there are too many owners.
    pub fn front(&self, end: usize) -> Result<Self, AllocError>
        requires { IsCharBoundary self.now end }
        ensures { IfOk result (λ front. front ≡ take end self.now) }
    {
        // Tells the proof that the bytes are UTF-8.
        let _bytes = self.text.as_bytes();
        Ok(Text {
            text: self.text.slice(..end)?,
        })
    }

    /// The text.
    pub fn as_str(&self) -> &str
        ensures { result.now ≡ self.now }
    {
        self.text.as_str()
    }
}

impl PartialEq for Text {
    ghost eq = { pointwise nat_eq };

    ghost laws = { partial_equiv_from_equiv nat_list_eq_equiv };

    fn eq(&self, other: &Text) -> bool {
        self.as_str() == other.as_str()
    }
}

impl Eq for Text {
    ghost laws = { nat_list_eq_equiv };
}

impl PartialOrd for Text {
    ghost partial_cmp = { λ a b. Some (slice_cmp nat_cmp a b) };

    ghost laws = { texts_po };

    fn partial_cmp(&self, other: &Text) -> Option<Ordering> {
        Some(self.cmp(other))
    }
}

impl Ord for Text {
    ghost cmp = { slice_cmp nat_cmp };

    ghost total = { nat_list_cmp_total };

    ghost matches_partial_cmp = { λ a b. refl };

    ghost matches_eq = { texts_ties };

    fn cmp(&self, other: &Text) -> Ordering {
        self.as_str().cmp(other.as_str())
    }
}

/// What stands behind the prefix, where the text begins with it.
pub fn behind<'a>(text: &'a str, prefix: &str) -> Option<&'a str>
    ensures { MatchOption result (starts_with nat_eq text.now prefix.now ≡ false) (λ rest. text.now ≡ prefix.now ++ rest.now) }
{
    text.strip_prefix(prefix)
}
