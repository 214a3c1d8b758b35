ghost use Rattle.std.specs.Prelude.{ℕ, List, Option};

/// A value that stands for a list of entries.
pub trait Stands {
    type Entry;

    type Ground;

    /// The list that the value stands for.
    ghost entries: { Self → List Self.Entry };

    /// Plain data that stays the same as long as the value lies in a lock.
    ghost ground_of: { Self → Self.Ground };

    /// The place of the earlier entry that an entry behind these closes, if it closes one.
    ghost closes: { List Self.Entry → Self.Entry → Option ℕ };
}
