ghost use Rattle.std.specs.Prelude.{◌≡◌, [], ◌∷◌, ◌+◌, ◌^◌, ◌<◌, Some, IfOk, IfErr};
ghost use Rattle.turn_lock.specs.declared.view.Phase.TheVariants.{Waiting};
ghost use Rattle.turn_lock.specs.Seats.{HasTurn, IsClosing, IsIdle, IsSame, over, own, seat_name, seen, turns};
ghost use Rattle.turn_lock.specs.Seen.{AddsAtMostOne, ClosesOwn, IsOwn, IsPrefix, StayOpen, longer, merged, own_after};
ghost use Rattle.turn_lock.specs.Steps.{Begins};
ghost use Rattle.turn_lock.specs.View.{at_phase};

use crate::plays::{Draws, GivesBack, Learns, Meets, Notes, Passes, Sees, Shuts};
use crate::stands::Stands;
use crate::view::{Turns, View};
use atomic_table::{Refused, Table};
use std::alloc::{AllocFailed, Global};
use std::marker::PhantomData;
use std::snapshot::Snapshot;
use std::sync::Wait;

// The word with the ticket that is drawn next, and the word with the ticket that is served.
const TICKET: usize = 0;

const SERVING: usize = 1;

/// A seat at one lock. It has no bytes, and may go to another thread. Contracts see what it has seen, and its own places.
pub type Seat<T> = atomic_table::Seat<Option<T>, View<<T as Stands>::Entry, <T as Stands>::Ground>>;

/// A lock that serves its seats by the tickets that they draw.
pub struct TurnLock<T: Stands> {
    table: Table<Option<T>, View<T::Entry, T::Ground>, Snapshot<T>, Turns<T>, Global>,
    ghost shaped: { (table.shared.table_id.words ≡ 2) × (table.shared.table_id.slots ≡ 1) },
}

/// The value, for one turn. It has to be spent by `leave`.
pub struct Held<'a, T> {
    pub value: T,
    lock: PhantomData<&'a T>,
}

impl<T: Stands> TurnLock<T> {
    ghost use Rattle.turn_lock.specs.Named.{lock_name};

    /// A lock around the value, and its first seat. A refusal for want of memory hands the value back.
    pub fn new(alloc: Global, value: T) -> Result<(TurnLock<T>, Seat<T>), AllocFailed<T>>
        ensures name { IfOk result (λ made. seat_name made.1 ≡ lock_name made.0) }
        ensures idle { IfOk result (λ made. IsIdle made.1) }
        ensures seen { IfOk result (λ made. seen made.1 ≡ T.entries value) }
        ensures own { IfOk result (λ made. own made.1 ≡ []) }
        ensures over { IfOk result (λ made. over made.1 ≡ Some (T.ground_of value)) }
        ensures turns { IfOk result (λ made. turns made.1 ≡ 0) }
        ensures back { IfErr result (λ failed. failed.value ≡ value) }
    {
        let about = Snapshot::of(&value);
        let mut slots = Vec::new(alloc);
        match slots.push(Some(value)) {
            Ok(()) => {}
            Err(failed) => {
                let AllocFailed { value: slot } = failed;
                slots.destroy_empty();
                return Err(AllocFailed {
                    value: slot.unwrap(),
                });
            }
        }
        match Table::new(alloc, &[0, 0], slots, &about) {
            Ok((table, seat)) => Ok((TurnLock { table }, seat)),
            Err(refused) => {
                let Refused { slots: mut back } = refused;
                let slot = back.pop();
                back.destroy_empty();
                Err(AllocFailed {
                    value: slot.unwrap().unwrap(),
                })
            }
        }
    }

    /// Waits until the lock serves this seat, and takes the value. At the last ticket, 2^64 - 1, it waits for ever.
    pub fn enter<R: Wait>(&self, rt: &R, seat: &mut Seat<T>) -> Held<'_, T>
        requires seat { seat_name seat.old ≡ lock_name self.now }
        requires idle { IsIdle seat.old }
        ensures same { IsSame seat.old seat.new }
        ensures turn { HasTurn seat.new }
        ensures turns { turns seat.new ≡ turns seat.old + 1 }
        ensures begins { IsPrefix (seen seat.old) (T.entries result.value) }
        ensures seen { seen seat.new ≡ T.entries result.value }
        ensures over_same { (g : T.Ground) → over seat.old ≡ Some g → T.ground_of result.value ≡ g }
        ensures own { own seat.new ≡ own seat.old }
        ensures over { over seat.new ≡ over seat.old }
        ensures places { IsOwn (own seat.new) (seen seat.new) }
        ensures open { StayOpen T.closes (own seat.old) (seen seat.old) (T.entries result.value) }
    {
        let ticket = self.draw(rt, seat);
        self.wait(rt, seat, ticket);
        match self.table.shared.exchange(seat, 0, None) {
            Some(value) => Held {
                value,
                lock: PhantomData,
            },
            None => unreachable!(),
        }
    }

    /// Gives the value back and passes the turn on. Whoever waits is woken.
    pub fn leave(&self, seat: &mut Seat<T>, held: Held<'_, T>)
        requires seat { seat_name seat.old ≡ lock_name self.now }
        requires turn { HasTurn seat.old }
        requires over { over seat.old ≡ Some (T.ground_of held.value) }
        requires adds { AddsAtMostOne (seen seat.old) (T.entries held.value) }
        requires closes { ClosesOwn T.closes (own seat.old) (seen seat.old) (T.entries held.value) }
        ensures same { IsSame seat.old seat.new }
        ensures idle { IsIdle seat.new }
        ensures seen { seen seat.new ≡ T.entries held.entry.value }
        ensures own { own seat.new ≡ own_after (own seat.old) (seen seat.old) (T.entries held.entry.value) }
        ensures over { over seat.new ≡ over seat.old }
        ensures turns { turns seat.new ≡ turns seat.old }
        ensures places { IsOwn (own seat.new) (seen seat.new) }
    {
        let Held { value, lock: _ } = held;
        match self.table.shared.exchange(seat, 0, Some(value)) {
            None => {}
            Some(_) => unreachable!(),
        }
        let served = self.table.shared.load::<GivesBack<T>>(seat, SERVING);
        let next = served + 1;
        self.table.shared.store::<Passes>(seat, SERVING, next);
        if self.table.shared.peek(TICKET) != next {
            self.table.shared.wake_all(SERVING);
        }
    }

    /// A new seat that has seen as much, and has no own places.
    pub fn note(&self, seat: &mut Seat<T>) -> Seat<T>
        requires seat { seat_name seat.old ≡ lock_name self.now }
        requires idle { IsIdle seat.old }
        ensures same { IsSame seat.old seat.new }
        ensures kept { seat.new.me ≡ seat.old.me }
        ensures name { seat_name result ≡ seat_name seat.old }
        ensures result_idle { IsIdle result }
        ensures seen { seen result ≡ seen seat.old }
        ensures own { own result ≡ [] }
        ensures over { over result ≡ over seat.old }
        ensures turns { turns result ≡ 0 }
    {
        self.table.shared.split_seat::<Notes>(seat)
    }

    /// Makes the seat know what another knew: the longer list, and the places of both.
    pub fn meet(&self, seat: &mut Seat<T>, other: Seat<T>)
        requires seat { seat_name seat.old ≡ lock_name self.now }
        requires other { seat_name other ≡ lock_name self.now }
        requires idle { IsIdle seat.old }
        requires other_idle { IsIdle other }
        ensures same { IsSame seat.old seat.new }
        ensures idle { IsIdle seat.new }
        ensures longer { seen seat.new ≡ longer (seen seat.old) (seen other) }
        ensures begins { IsPrefix (seen seat.old) (seen seat.new) }
        ensures other_begins { IsPrefix (seen other) (seen seat.new) }
        ensures own { own seat.new ≡ merged (own seat.old) (own other) }
        ensures over { over seat.new ≡ over seat.old }
        ensures turns { turns seat.new ≡ turns seat.old }
        ensures places { IsOwn (own seat.new) (seen seat.new) }
    {
        self.table.shared.join_seat::<Meets>(seat, other);
        self.table.shared.load::<Learns>(seat, SERVING);
    }

    /// Waits as `enter` does, takes the value out and gives the lock up.
    pub fn close<R: Wait>(self, rt: &R, mut seat: Seat<T>) -> T
        requires seat { seat_name seat ≡ lock_name self }
        requires idle { IsIdle seat }
        ensures begins { IsPrefix (seen seat) (T.entries result) }
        ensures over_same { (g : T.Ground) → over seat ≡ Some g → T.ground_of result ≡ g }
        ensures open { StayOpen T.closes (own seat) (seen seat) (T.entries result) }
    {
        let value = self.take_out(rt, &mut seat);
        let TurnLock { table } = self;
        let mut closed = table.close_with(seat);
        match closed.take(0) {
            None => {}
            Some(_) => unreachable!(),
        }
        closed.free();
        value
    }

    fn draw<R: Wait>(&self, rt: &R, seat: &mut Seat<T>) -> u64
        requires seat { seat_name seat.old ≡ lock_name self.now }
        requires idle { IsIdle seat.old }
        ensures same { IsSame seat.old seat.new }
        ensures waits { seat.new.me ≡ (at_phase (Waiting result) seat.old.me.0, []) }
    {
        for _ in rt.forever() {
            let ticket = self.table.shared.peek(TICKET);
            if ticket < u64::MAX {
                let next = ticket + 1;
                let found = self
                    .table
                    .shared
                    .compare_exchange::<Draws>(seat, TICKET, ticket, next);
                if found == ticket {
                    return ticket;
                }
            }
        }
        unreachable!()
    }

    fn wait<R: Wait>(&self, rt: &R, seat: &mut Seat<T>, ticket: u64)
        requires seat { seat_name seat.old ≡ lock_name self.now }
        requires waits { (seat.old.me.0.phase ≡ Waiting ticket) × (seat.old.me.1 ≡ []) }
        ensures same { IsSame seat.old seat.new }
        ensures begins { Begins T.entries T.ground_of T.closes ticket seat.old.me.0 seat.new.me }
    {
        for _ in rt.forever() {
            let serving = self.table.shared.load::<Sees<T>>(seat, SERVING);
            if serving == ticket {
                return;
            }
            let low = (serving % (1 << 32)) as u32;
            self.table.shared.park(rt, SERVING, low);
        }
        unreachable!()
    }

    fn take_out<R: Wait>(&self, rt: &R, seat: &mut Seat<T>) -> T
        requires seat { seat_name seat.old ≡ lock_name self.now }
        requires idle { IsIdle seat.old }
        ensures same { IsSame seat.old seat.new }
        ensures closing { IsClosing seat.new }
        ensures begins { IsPrefix (seen seat.old) (T.entries result) }
        ensures over_same { (g : T.Ground) → over seat.old ≡ Some g → T.ground_of result ≡ g }
        ensures open { StayOpen T.closes (own seat.old) (seen seat.old) (T.entries result) }
    {
        let Held { value, lock: _ } = self.enter(rt, seat);
        self.table.shared.load::<Shuts>(seat, SERVING);
        value
    }
}
