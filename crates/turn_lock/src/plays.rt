// What each step tells. These types are for the proofs alone.
ghost use Rattle.turn_lock.specs.Steps.{draws, gives_back, learns, passes, sees, shuts};
ghost use Rattle.turn_lock.specs.View.{after_meeting, newcomer, spent};

use crate::stands::Stands;
use crate::view::View;
use atomic_table::{Join, Play, Split};
use std::marker::PhantomData;

pub(crate) struct Draws;

impl<T, E, G> Play<Option<T>, View<E, G>> for Draws {
    ghost then = { draws };
}

pub(crate) struct Sees<T> {
    value: PhantomData<T>,
}

impl<T: Stands> Play<Option<T>, View<T::Entry, T::Ground>> for Sees<T> {
    ghost then = { sees T.entries T.ground_of T.closes };
}

pub(crate) struct GivesBack<T> {
    value: PhantomData<T>,
}

impl<T: Stands> Play<Option<T>, View<T::Entry, T::Ground>> for GivesBack<T> {
    ghost then = { gives_back T.entries T.ground_of T.closes };
}

pub(crate) struct Passes;

impl<T, E, G> Play<Option<T>, View<E, G>> for Passes {
    ghost then = { passes };
}

pub(crate) struct Shuts;

impl<T, E, G> Play<Option<T>, View<E, G>> for Shuts {
    ghost then = { shuts };
}

pub(crate) struct Learns;

impl<T, E, G> Play<Option<T>, View<E, G>> for Learns {
    ghost then = { learns };
}

pub(crate) struct Notes;

impl<E, G> Split<View<E, G>> for Notes {
    ghost left = { λ v. v };

    ghost right = { newcomer };
}

pub(crate) struct Meets;

impl<E, G> Join<View<E, G>> for Meets {
    ghost both = { after_meeting };

    ghost spent = { spent };
}
