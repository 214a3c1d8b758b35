ghost use Rattle.std.specs.Prelude.{◌≡◌, ◌≤◌, ◌==◌, ◌↔◌, IsSome, is_some, None, OnOk, OnErr, IfErr, IsErrOf, option_copied};
ghost use Rattle.std.specs.Option.{option_copied_mut};
ghost use Rattle.std.specs.Borrow.{sem};
ghost use Rattle.std.specs.FinMap as map;
ghost use Rattle.mp_types.specs.HandleName.{max_handles};

use mp_types::MAX_HANDLES;
use slab::Slab;
use std::alloc::Global;
use std::collections::BTreeMap;
use std::marker::Model;

/// Why a name can't be opened.
#[derive(Debug, Clone, Copy, PartialEq, Eq)]
pub enum OpenFault {
    InUse,
    Full,
    Memory,
}

/// The live handles, each under the process that opened it and the number that this process chose.
/// A call looks a name up in time that grows with the logarithm of how many are live.
#[derive(Drop)]
pub struct Handles<T> {
    slots: Slab<T>,
    // In which slot each name's value stands.
    index: BTreeMap<(u16, u16), usize>,
}

impl<T> Model for Handles<T> {
    ghost use Rattle.std.specs.FinMap as map;
    ghost use Rattle.std.specs.Coded.{coded_ℕ, coded×};
    ghost use Rattle.mp_types.specs.HandleName.{name_cmp};

    ghost Value = { map.FinMap name_cmp T };

    ghost coded = { map.code (coded× coded_ℕ coded_ℕ) T.code };

    ghost use Rattle.mp_handles.specs.Kept.{IsKept, map_in};

    ghost view = { λ a. map_in a.slots a.index.entries };

    ghost invariant = { λ a. IsKept a.slots a.index };
}

impl<T> Handles<T> {
    ghost use Rattle.mp_handles.specs.Lends.{lends_at};

    /// No handles. Takes no memory.
    pub fn new(alloc: Global) -> Self
        ensures { result ≡ map.empty }
    {
        Handles {
            slots: Slab::new(alloc),
            index: BTreeMap::new(alloc),
        }
    }

    /// Opens a name that isn't live, and hands the value back where that can't be.
    pub fn open(&mut self, actor: u16, name: u16, value: T) -> Result<(), (OpenFault, T)>
        ensures ok { OnOk result (self.new ≡ map.insert self.old (actor, name) value) }
        ensures in_use { (IsErrOf result (OpenFault.InUse, value)) ↔ (IsSome (map.get self.old (actor, name))) }
        ensures full { (IsErrOf result (OpenFault.Full, value)) ↔ ((map.get self.old (actor, name) ≡ None) × (map.len self.old ≡ max_handles)) }
        ensures err { OnErr result (self.new ≡ self.old) }
        ensures value_returned { IfErr result (λ refused. refused.1 ≡ value) }
    {
        if self.is_live(actor, name) {
            return Err((OpenFault::InUse, value));
        }
        if self.is_full() {
            return Err((OpenFault::Full, value));
        }
        match self.slots.reserve(1) {
            Ok(_) => {}
            Err(_) => return Err((OpenFault::Memory, value)),
        }
        let slot = self.slots.vacant_key();
        match self.index.insert((actor, name), slot) {
            Ok(_) => {}
            Err(_) => return Err((OpenFault::Memory, value)),
        }
        self.slots.insert_reserved(value);
        Ok(())
    }

    /// The value of a live name.
    pub fn get(&self, actor: u16, name: u16) -> Option<&T>
        ensures { option_copied result ≡ map.get self.now (actor, name) }
    {
        match self.index.get(&(actor, name)) {
            Some(slot) => self.slots.get(*slot),
            None => None,
        }
    }

    /// The value of a live name, for writing.
    pub fn get_mut(&mut self, actor: u16, name: u16) -> Option<&mut T>
        ensures* writes_back { sem 𝓛 (lends_at T.row self.entry (actor, name) result) }
        ensures value { option_copied_mut result ≡ map.get self.old (actor, name) }
    {
        match self.index.get(&(actor, name)) {
            Some(slot) => {
                let slot = *slot;
                self.slots.get_mut(slot)
            }
            None => None,
        }
    }

    /// Ends a live handle, and hands out its value. Takes no memory.
    pub fn close(&mut self, actor: u16, name: u16) -> Option<T>
        ensures value { result ≡ map.get self.old (actor, name) }
        ensures removed { self.new ≡ map.remove self.old (actor, name) }
    {
        match self.index.remove(&(actor, name)) {
            Some(slot) => self.slots.try_remove(slot),
            None => None,
        }
    }

    fn is_live(&self, actor: u16, name: u16) -> bool
        ensures { result ≡ is_some (map.get self.now (actor, name)) }
    {
        self.get(actor, name).is_some()
    }

    /// How many handles are live.
    pub fn len(&self) -> usize
        ensures len { result ≡ map.len self.now }
        ensures few { result ≤ max_handles }
    {
        self.index.len()
    }

    /// Whether no further name can be opened.
    pub fn is_full(&self) -> bool
        ensures { result ≡ (map.len self.now == max_handles) }
    {
        self.len() == MAX_HANDLES
    }
}
