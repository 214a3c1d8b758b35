ghost use Rattle.std.specs.Prelude.{◌≡◌, ℕ, List, MatchOption, false};
ghost use Rattle.mp_rules.specs.Keys.{is_under};
ghost use Rattle.local_names.specs.Under.{IsParent};

/// The key without its last `/` and what follows: above a key stand this one and those above it.
pub fn parent(key: &str) -> Option<&str>
    ensures { MatchOption result ((q : List ℕ) → is_under key.now q ≡ false) (λ above. IsParent key.now above.now) }
{
    match key.rsplit_once('/') {
        Some((above, _)) => Some(above),
        None => None,
    }
}
