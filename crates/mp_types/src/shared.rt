ghost use Rattle.std.specs.Prelude.{◌≡◌, IfOk};
ghost use Rattle.std.specs.Cmp.Lexicographic.{pointwise, lists_equiv, lists_per};

use std::alloc::AllocError;
use std::marker::Model;
use std::sync::ArcSlice;

/// A list that several owners share, so that one more of them costs the same for any length. Contracts see its elements alone.
#[derive(Debug, Drop)]
pub struct Shared<T> {
    items: ArcSlice<T>,
}

impl<T> Model for Shared<T> {
    ghost use Rattle.std.specs.Prelude.{List};
    ghost use Rattle.std.specs.Arc.{arc_slice_items};
    ghost use Rattle.std.specs.Coded.{coded_list};

    ghost Value = { List T };

    ghost coded = { coded_list T.code };

    ghost view = { λ a. arc_slice_items a.items };
}

impl<T: Drop> Shared<T> {
    /// The list of a vector's elements.
    pub fn from_vec(items: Vec<T>) -> Result<Self, AllocError>
        ensures { IfOk result (λ made. made ≡ items.items) }
    {
        Ok(Shared {
            items: ArcSlice::from_vec(items)?,
        })
    }

    /// The same list for one more owner. Takes no memory: an error says that there are too many owners.
    pub fn share(&self) -> Result<Self, AllocError>
        ensures { IfOk result (λ shared. shared ≡ self.now) }
    {
        Ok(Shared {
            items: self.items.clone()?,
        })
    }
}

impl<T> Shared<T> {
    /// The elements in order.
    pub fn as_slice(&self) -> &[T]
        ensures { result.now ≡ self.now }
    {
        self.items.as_slice()
    }
}

impl<T: PartialEq> PartialEq for Shared<T> {
    ghost eq = { pointwise T.eq };

    ghost laws = { lists_per T.laws };

    fn eq(&self, other: &Self) -> bool {
        self.as_slice() == other.as_slice()
    }
}

impl<T: Eq> Eq for Shared<T> {
    ghost laws = { lists_equiv T.Eq.laws };
}
