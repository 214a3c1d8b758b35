ghost use Rattle.std.specs.Prelude.{◌≡◌, ◌≤◌, [], ◌++◌, length, take, drop, false, Some, IfOk, OnOk, OnErr};
ghost use Rattle.mp_types.specs.Content.{bytes_of};

use crate::buffers::Buffers;
use bytes::Bytes;
use mp_types::Data;
use std::alloc::{AllocError, Global};
use std::marker::Model;

/// The bytes that no part was asked for. Those of the next part are shared with who took them, until it is asked for.
#[derive(Drop)]
pub struct Waiting {
    front: Option<Bytes>,
    behind: Buffers,
}

impl Model for Waiting {
    ghost use Rattle.part_uploader.specs.Unasked.{Unasked, IsFront, unasked};

    ghost Value = { Unasked };

    ghost view = { λ a. unasked a.front a.behind };

    ghost invariant = { λ a. IsFront a.front a.behind };
}

// Keeps the bytes, and shares them. A refusal keeps them too.
fn keep(front: &mut Option<Bytes>, bytes: Bytes) -> Result<Bytes, AllocError>
    ensures kept { front.new ≡ Some bytes }
    ensures shared { IfOk result (λ shared. shared ≡ bytes) }
{
    let shared: Result<Bytes, AllocError> = bytes.clone();
    *front = Some(bytes);
    shared
}

impl Waiting {
    /// No bytes. Takes no memory.
    pub fn new(alloc: Global, part: usize) -> Self
        requires { 1 ≤ part }
        ensures { result ≡ record { part = part; bytes = []; ended = false } }
    {
        Waiting {
            front: None,
            behind: Buffers::new(alloc, part),
        }
    }

    /// How many bytes go into a part.
    pub fn part(&self) -> usize
        ensures { result ≡ self.now.part }
    {
        self.behind.part()
    }

    /// Adds the bytes of the data from a place on. A refusal changes nothing that is seen.
    pub fn add(&mut self, data: &Data, at: u64) -> Result<(), AllocError>
        requires within { at ≤ length (bytes_of «data».now) }
        requires open { self.old.ended ≡ false }
        ensures ok { OnOk result (self.new ≡ record { part = self.old.part; bytes = self.old.bytes ++ drop at (bytes_of «data».now); ended = false }) }
        ensures err { OnErr result (self.new ≡ self.old) }
    {
        self.behind.add(data, at)
    }

    /// The bytes of the next part, which stay here too. No byte is copied.
    pub fn front(&mut self) -> Result<Bytes, AllocError>
        ensures front { IfOk result (λ bytes. bytes ≡ take self.old.part self.old.bytes) }
        ensures part { self.new.part ≡ self.old.part }
        ensures bytes { self.new.bytes ≡ self.old.bytes }
        ensures open { self.old.part ≤ length self.old.bytes → self.new.ended ≡ false }
    {
        match &self.front {
            Some(bytes) => return Ok(bytes.clone()?),
            None => {}
        }
        let bytes = self.behind.take_front()?;
        keep(&mut self.front, bytes)
    }

    /// Lets the bytes of the next part go. Takes no memory.
    pub fn drop_front(&mut self)
        ensures { self.new ≡ record { part = self.old.part; bytes = drop self.old.part self.old.bytes; ended = false } }
    {
        match self.front.take() {
            Some(_) => {}
            None => self.behind.drop_front(),
        }
    }

    /// Lets all bytes go.
    pub fn clear(&mut self)
        ensures { self.new ≡ record { part = self.old.part; bytes = []; ended = false } }
    {
        self.front = None;
        self.behind.clear();
    }
}
