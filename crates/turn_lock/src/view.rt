ghost use Rattle.std.specs.Prelude.{Some, []};
ghost use Rattle.turn_lock.specs.declared.view.Phase.TheVariants.{Idle};
ghost use Rattle.turn_lock.specs.View.{viewed};
ghost use Rattle.turn_lock.specs.Rule.{Ruled};

use crate::stands::Stands;
use atomic_table::TableRule;
use std::collections::LinkedList;
use std::marker::PhantomData;
use std::snapshot::Snapshot;

/// How far a seat has come with its turn, with the ticket that it drew. No value of it is made.
pub enum Phase {
    Idle,
    /// It waits for its turn.
    Waiting(u64),
    /// It has the value.
    Turn(u64),
    /// It gave the value back, and has yet to pass the turn on.
    Left(u64),
    /// It took the value out for good.
    Closing(u64),
}

/// What a seat knows. No value of it is made.
pub struct View<E, G> {
    pub phase: Phase,
    pub turns: u64,
    pub seen: LinkedList<E>,
    /// What it had seen, or the seat that it met, where that was less.
    pub met: LinkedList<E>,
    /// The places of the entries that its own turns added.
    pub own: LinkedList<u64>,
    pub over: Option<G>,
}

/// The rule of a lock's two words, its slot and its views.
pub struct Turns<T> {
    value: PhantomData<T>,
}

impl<T: Stands> TableRule<Option<T>, View<T::Entry, T::Ground>, Snapshot<T>> for Turns<T> {
    ghost holds = { λ _. Ruled T.entries T.ground_of T.closes };

    ghost first = { λ k. viewed Idle 0 (T.entries k.value) [] (Some (T.ground_of k.value)) };
}
