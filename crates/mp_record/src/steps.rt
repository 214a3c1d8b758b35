ghost use Rattle.std.specs.Prelude.{◌≡◌, [], MatchOption};
ghost use Rattle.mp_record.specs.Rows.{goes_on, SplitsStep};

use mount_model::Item;

// Whether an item goes on with the step of the one in front of it.
fn goes_on(before: &Item, item: &Item) -> bool
    ensures { result ≡ goes_on before.now item.now }
{
    !matches!(item, Item::Event(_))
}

/// Splits the items of the first step off. It goes on up to the next event.
pub fn split_step(items: &[Item]) -> Option<(&[Item], &[Item])>
    ensures { MatchOption result (items.now ≡ []) (λ cut. SplitsStep items.now cut.0.now cut.1.now) }
{
    let step = items.chunk_by(goes_on).next()?;
    Some(items.split_at(step.len()))
}
