ghost use Rattle.std.specs.Prelude.{◌≡◌, List, ℕ};
ghost use Rattle.std.specs.declared.cmp.Ordering.TheVariants.{Equal};
ghost use Rattle.std.specs.Cmp.{IsTotalOrder};
ghost use Rattle.mp_rules.specs.Names.{name_cmp};

use std::cmp::Ordering;
use std::iter::once;

/// The order of two names in a listing: that of their bytes, each followed by a `/`. It is the order in which the
/// bucket has the keys below them, where they are directories.
pub fn name_order(a: &str, b: &str) -> Ordering
    ensures { result ≡ name_cmp a.now b.now }
{
    a.bytes().chain(once(b'/')).cmp(b.bytes().chain(once(b'/')))
}

/// The order of names is total, and no two names tie.
pub fn names_are_ordered()
    ensures total { IsTotalOrder name_cmp }
    ensures distinct { (a b : List ℕ) → name_cmp a b ≡ Equal → a ≡ b }
{}
