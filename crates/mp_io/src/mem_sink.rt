ghost use Rattle.mp_types.specs.Count.{HasRisen};
ghost use Rattle.std.specs.Prelude.{◌≡◌, ◌<◌, ◌≤◌, [], length, Some, IfOk, OnErr};
ghost use Rattle.mp_io.specs.Bytes.{Writes};
ghost use Rattle.mp_io.specs.Memory.{write_answer, after_write};

use crate::sink::Sink;
use crate::source::Failed;
use std::alloc::{AllocError, Global};
use std::marker::Model;

/// A sink into memory that takes small pieces, with writes that fail at will.
/// The number of a write, counted from 1, stays at the greatest `u64` once there.
#[derive(Drop)]
pub struct MemSink {
    bytes: Vec<u8>,
    room: usize,
    piece: usize,
    fails: Vec<u64>,
    calls: u64,
    faults: u64,
}

impl Model for MemSink {
    ghost use Rattle.std.specs.Prelude.{◌≤◌, length, vec_capacity};
    ghost use Rattle.mp_io.specs.Memory.{SinkState};

    ghost Value = { SinkState };

    ghost view = { λ a. record { held = a.bytes.items; room = a.room; piece = a.piece; fails = a.fails.items; calls = a.calls; faults = a.faults } };

    ghost invariant = { λ a. (1 ≤ a.piece) × (length a.bytes.items ≤ a.room) × (a.room ≤ vec_capacity a.bytes) };
}

impl MemSink {
    /// An empty sink with room for `room` bytes, which it takes here, and that takes at most `piece` a write.
    /// The writes whose numbers are in `fails` fail, and so does one of bytes where no room is left.
    pub fn new(
        alloc: Global,
        room: usize,
        piece: usize,
        fails: Vec<u64>,
    ) -> Result<Self, AllocError>
        requires { 1 ≤ piece }
        ensures { IfOk result (λ sink. sink ≡ record { held = []; room = room; piece = piece; fails = fails.items; calls = 0; faults = 0 }) }
    {
        Ok(MemSink {
            bytes: Vec::with_capacity(alloc, room)?,
            room,
            piece,
            fails,
            calls: 0,
            faults: 0,
        })
    }

    /// The bytes that it holds.
    pub fn held(&self) -> &[u8]
        ensures { result.now ≡ self.now.held }
    {
        self.bytes.as_slice()
    }
}

impl Sink for MemSink {
    ghost held = { λ sink. Some sink.held };

    ghost faults = { λ sink. sink.faults };

    fn write(&mut self, piece: &[u8]) -> Result<usize, Failed>
        ensures fits { IfOk result (λ n. n ≤ length piece.now) }
        ensures some { IfOk result (λ n. 0 < length piece.now → 0 < n) }
        ensures told { Writes (Some self.old.held) piece.now result (Some self.new.held) }
        ensures faults_grow { self.old.faults ≤ self.new.faults }
        ensures failed { OnErr result (HasRisen self.old.faults self.new.faults) }
        ensures answer { result ≡ write_answer self.old (length piece.now) }
        ensures after { self.new ≡ after_write self.old piece.now }
    {
        self.calls = self.calls.saturating_add(1);
        let room = self.room - self.bytes.len();
        if self.fails.contains(&self.calls) || (room == 0 && !piece.is_empty()) {
            self.faults = self.faults.saturating_add(1);
            return Err(Failed);
        }
        let count = piece.len().min(self.piece).min(room);
        match self.bytes.extend_from_slice(&piece[..count]) {
            Ok(()) => Ok(count),
            Err(_) => unreachable!(),
        }
    }
}

#[cfg(test)]
mod tests {
    use super::*;
    use std::test::Fail;

    // The second write fails, and no room is left behind the third.
    fn takes_three(sink: &mut MemSink) -> bool {
        sink.held().is_empty()
            && sink.write(b"abc") == Ok(2)
            && sink.write(b"cde") == Err(Failed)
            && sink.held() == b"ab".as_slice()
            && sink.write(b"cde") == Ok(1)
            && sink.write(b"de") == Err(Failed)
            && sink.write(b"") == Ok(0)
            && sink.held() == b"abc".as_slice()
    }

    #[test]
    fn takes_pieces_of_two_until_no_room_is_left(rt: HostRuntime) -> Result<(), Fail> {
        let fails = vec![in rt.alloc(); 2u64]?;
        let mut sink = MemSink::new(rt.alloc(), 3, 2, fails)?;
        assert!(rt; takes_three(&mut sink));
        Ok(())
    }
}
