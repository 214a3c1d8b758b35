ghost use Rattle.std.specs.Prelude.{◌≡◌, ◌+◌, ◌-◌, ◌<◌, ◌≤◌, [], ◌++◌, length, take, drop, is_ok, if◌then◌else◌, IfOk, OnOk, OnErr, vec_len};
ghost use Rattle.std.specs.List.{slice_range};
ghost use Rattle.mp_types.specs.Content.{bytes_of};

use bytes::Bytes;
use mp_types::{Data, Octets};
use std::alloc::{AllocError, Global};
use std::collections::VecDeque;
use std::marker::Model;
use std::mem;

/// The bytes that wait for their parts, in buffers of a part each.
#[derive(Drop)]
pub struct Buffers {
    alloc: Global,
    part: usize,
    // each has a whole part
    full: VecDeque<Octets>,
    // the bytes behind those, fewer than a part
    last: Vec<u8>,
}

impl Model for Buffers {
    ghost use Rattle.part_uploader.specs.Buffered.{Buffered, AreCut, bytes_in};

    ghost Value = { Buffered };

    ghost view = { λ a. record { part = a.part; bytes = bytes_in a.full.items a.last.items } };

    ghost invariant = { λ a. AreCut a.part a.full.items a.last.items };
}

// Writes the data from a place on behind the first bytes of a buffer.
fn fill_behind(buffer: &mut [u8], len: usize, data: &Data, at: u64)
    requires len { len ≤ length buffer.old }
    requires within { at + (length buffer.old - len) ≤ length (bytes_of «data».now) }
    ensures { buffer.new ≡ take len buffer.old ++ slice_range (bytes_of «data».now) at (at + (length buffer.old - len)) }
{
    data.fill(at, &mut buffer[len..]);
}

// So many bytes of the data, from a place on, go to the end of a buffer that is to have a part at most. Room for the
// whole part is taken with its first byte: what stands in it is never copied, and memory that isn't written costs
// nothing.
fn extend(
    buffer: &mut Vec<u8>,
    part: usize,
    data: &Data,
    at: u64,
    count: usize,
) -> Result<(), AllocError>
    requires within { at + count ≤ length (bytes_of «data».now) }
    requires fits { vec_len buffer.old + count ≤ part }
    ensures { buffer.new.items ≡ (if is_ok result then buffer.old.items ++ slice_range (bytes_of «data».now) at (at + count) else buffer.old.items) }
{
    if count == 0 {
        return Ok(());
    }
    let len = buffer.len();
    buffer.reserve_exact(part - len)?;
    buffer.resize(len + count, 0)?;
    fill_behind(buffer.as_mut_slice(), len, data, at);
    Ok(())
}

impl Buffers {
    /// No bytes. Takes no memory.
    pub fn new(alloc: Global, part: usize) -> Self
        requires { 1 ≤ part }
        ensures { result ≡ record { part = part; bytes = [] } }
    {
        Buffers {
            alloc,
            part,
            full: VecDeque::new(alloc),
            last: Vec::new(alloc),
        }
    }

    /// How many bytes go into a part.
    pub fn part(&self) -> usize
        ensures { result ≡ self.now.part }
    {
        self.part
    }

    // The bytes of the data from a place on, in buffers of their own.
    fn filled(alloc: Global, part: usize, data: &Data, at: u64) -> Result<Self, AllocError>
        requires some { 1 ≤ part }
        requires within { at ≤ length (bytes_of «data».now) }
        ensures { IfOk result (λ buffers. buffers ≡ record { part = part; bytes = drop at (bytes_of «data».now) }) }
    {
        let mut full = VecDeque::new(alloc);
        let mut place = at;
        while data.len() - place >= part as u64 {
            let mut buffer = Vec::new(alloc);
            extend(&mut buffer, part, data, place, part)?;
            match full.push_back(Octets::from_vec(buffer)) {
                Ok(()) => {}
                Err(_) => return Err(AllocError),
            }
            place += part as u64;
        }
        let mut last = Vec::new(alloc);
        extend(&mut last, part, data, place, (data.len() - place) as usize)?;
        Ok(Buffers {
            alloc,
            part,
            full,
            last,
        })
    }

    /// Adds the bytes of the data from a place on. A refusal changes nothing that is seen.
    pub fn add(&mut self, data: &Data, at: u64) -> Result<(), AllocError>
        requires { at ≤ length (bytes_of «data».now) }
        ensures ok { OnOk result (self.new ≡ record { part = self.old.part; bytes = self.old.bytes ++ drop at (bytes_of «data».now) }) }
        ensures err { OnErr result (self.new ≡ self.old) }
    {
        let room = self.part - self.last.len();
        let count = data.len() - at;
        if count < room as u64 {
            return extend(&mut self.last, self.part, data, at, count as usize);
        }
        let Buffers {
            alloc: _,
            part: _,
            full: mut behind,
            last,
        } = Buffers::filled(self.alloc, self.part, data, at + room as u64)?;
        self.full.reserve(behind.len() + 1)?;
        extend(&mut self.last, self.part, data, at, room)?;
        let first = mem::replace(&mut self.last, last);
        self.full.push_back_reserved(Octets::from_vec(first));
        match self.full.append(&mut behind) {
            Ok(()) => Ok(()),
            Err(_) => unreachable!(),
        }
    }

    /// The bytes of the next part, which move out. A refusal changes nothing that is seen.
    pub fn take_front(&mut self) -> Result<Bytes, AllocError>
        ensures bytes { IfOk result (λ bytes. bytes ≡ take self.old.part self.old.bytes) }
        ensures ok { OnOk result (self.new ≡ record { part = self.old.part; bytes = drop self.old.part self.old.bytes }) }
        ensures err { OnErr result (self.new ≡ self.old) }
    {
        match self.full.pop_front() {
            Some(first) => match Bytes::from_vec(first.into_vec()) {
                Ok(bytes) => Ok(bytes),
                Err(refused) => {
                    self.full
                        .push_front_reserved(Octets::from_vec(refused.value));
                    Err(AllocError)
                }
            },
            None => {
                let last = mem::replace(&mut self.last, Vec::new(self.alloc));
                match Bytes::from_vec(last) {
                    Ok(bytes) => Ok(bytes),
                    Err(refused) => {
                        self.last = refused.value;
                        Err(AllocError)
                    }
                }
            }
        }
    }

    /// Lets the bytes of the next part go. Takes no memory.
    pub fn drop_front(&mut self)
        ensures { self.new ≡ record { part = self.old.part; bytes = drop self.old.part self.old.bytes } }
    {
        let Some(_) = self.full.pop_front() else {
            self.last = Vec::new(self.alloc);
            return;
        };
    }

    /// Lets all bytes go.
    pub fn clear(&mut self)
        ensures { self.new ≡ record { part = self.old.part; bytes = [] } }
    {
        self.full = VecDeque::new(self.alloc);
        self.last = Vec::new(self.alloc);
    }
}
