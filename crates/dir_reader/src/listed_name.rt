ghost use Rattle.std.specs.Prelude.{◌≡◌, Some, refl};
ghost use Rattle.mp_rules.specs.Names.{name_cmp};
ghost use Rattle.dir_reader.specs.Order.{is_same_name, names_equiv, names_per, names_po, names_total};

use mp_rules::name_order;
use mp_types::Text;
use std::alloc::{AllocError, Global};
use std::cmp::Ordering;
use std::marker::Model;

/// A name, ordered as a listing orders it.
#[derive(Drop)]
pub struct ListedName {
    text: Text,
}

impl Model for ListedName {
    ghost use Rattle.std.specs.Prelude.{List, ℕ};

    ghost Value = { List ℕ };

    ghost view = { λ a. a.text };
}

impl ListedName {
    /// The name of a text. Takes no memory.
    pub fn new(text: Text) -> Self
        ensures { result ≡ text }
    {
        ListedName { text }
    }

    /// The name's text.
    pub fn as_str(&self) -> &str
        ensures { result.now ≡ self.now }
    {
        self.text.as_str()
    }

    /// The name's text. Takes no memory.
    pub fn into_text(self) -> Text
        ensures { result ≡ self }
    {
        self.text
    }
}

impl PartialEq for ListedName {
    ghost eq = { is_same_name };

    ghost laws = { names_per };

    fn eq(&self, other: &ListedName) -> bool {
        self.cmp(other).is_eq()
    }
}

impl Eq for ListedName {
    ghost laws = { names_equiv };
}

impl PartialOrd for ListedName {
    ghost partial_cmp = { λ a b. Some (name_cmp a b) };

    ghost laws = { names_po };

    fn partial_cmp(&self, other: &ListedName) -> Option<Ordering> {
        Some(self.cmp(other))
    }
}

impl Ord for ListedName {
    ghost cmp = { name_cmp };

    ghost total = { names_total };

    ghost matches_partial_cmp = { λ a b. refl };

    ghost matches_eq = { λ a b. refl };

    fn cmp(&self, other: &ListedName) -> Ordering {
        name_order(self.text.as_str(), other.text.as_str())
    }
}
