use crate::kept::Kept;
use std::collections::LinkedList;
use std::marker::Model;
use store_trait::Store;
use turn_lock::Seat;

/// What tells one shared bucket from another: contracts see which lock it is. No value of it is made.
pub struct BucketName {
    words: u64,
    slots: u64,
    views_name: u64,
    atom: u64,
    block: u64,
    offset: u64,
    slot_names: LinkedList<u64>,
}

impl Model for BucketName {
    ghost use Rattle.atomic_table.specs.Seated.{TableId, table_id_coded};

    ghost Value = { TableId };

    ghost coded = { table_id_coded };

    ghost view = { λ a. record { words = a.words; slots = a.slots; views_name = a.views_name; atom = a.atom; block = a.block; offset = a.offset; slot_names = a.slot_names } };
}

/// What one thread knows of a shared bucket: the history as far as it has seen it, the positions of the entries
/// that its own calls added, and how many of these calls failed. It may go to another thread.
#[derive(Drop)]
pub struct Pass<S: Store> {
    pub(crate) seat: Seat<Kept<S>>,
    pub(crate) length: u64,
    pub(crate) faults: u64,
}

impl<S: Store> Model for Pass<S> {
    ghost use Rattle.turn_lock.specs.Seats.{own, seat_name, seen};
    ghost use Rattle.shared_bucket.specs.Known.{IsKnown, Known};

    ghost Value = { Known };

    ghost view = { λ a. record { bucket = seat_name a.seat; seen = seen a.seat; places = own a.seat; faults = a.faults } };

    ghost invariant = { λ a. IsKnown a.seat a.length };
}
