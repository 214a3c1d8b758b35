ghost use Rattle.mp_types.specs.Count.{HasRisen};
ghost use Rattle.std.specs.Prelude.{◌≡◌, ◌≤◌, ◌++◌, length, drop, Some, IfOk, OnErr};
ghost use Rattle.mp_io.specs.Bytes.{Reads};
ghost use Rattle.mp_io.specs.Memory.{read_answer, after_read, filled};

use crate::source::{Failed, Source};
use std::marker::Model;

/// Bytes in memory, given in small pieces, with reads that fail at will.
/// The number of a read, counted from 1, stays at the greatest `u64` once there.
#[derive(Drop)]
pub struct MemSource {
    bytes: Vec<u8>,
    at: usize,
    piece: usize,
    fails: Vec<u64>,
    calls: u64,
    faults: u64,
}

impl Model for MemSource {
    ghost use Rattle.std.specs.Prelude.{◌≤◌, length, drop};
    ghost use Rattle.mp_io.specs.Memory.{SourceState};

    ghost Value = { SourceState };

    ghost view = { λ a. record { left = drop a.at a.bytes.items; piece = a.piece; fails = a.fails.items; calls = a.calls; faults = a.faults } };

    ghost invariant = { λ a. (1 ≤ a.piece) × (a.at ≤ length a.bytes.items) };
}

// Writes a text over the front of a buffer.
fn copy_front(buf: &mut [u8], text: &[u8])
    requires { length text.now ≤ length buf.old }
    ensures { buf.new ≡ text.now ++ drop (length text.now) buf.old }
{
    let len = text.len();
    let front = &mut buf[..len];
    front.copy_from_slice(text);
}

impl MemSource {
    /// A source of these bytes that gives at most `piece` of them a read.
    /// The reads whose numbers are in `fails` fail.
    pub fn new(bytes: Vec<u8>, piece: usize, fails: Vec<u64>) -> Self
        requires { 1 ≤ piece }
        ensures { result ≡ record { left = bytes.items; piece = piece; fails = fails.items; calls = 0; faults = 0 } }
    {
        MemSource {
            bytes,
            at: 0,
            piece,
            fails,
            calls: 0,
            faults: 0,
        }
    }
}

impl Source for MemSource {
    ghost left = { λ source. Some source.left };

    ghost faults = { λ source. source.faults };

    fn read(&mut self, buf: &mut [u8]) -> Result<usize, Failed>
        ensures fits { IfOk result (λ n. n ≤ length buf.old) }
        ensures told { Reads (Some self.old.left) buf.old result (Some self.new.left) buf.new }
        ensures faults_grow { self.old.faults ≤ self.new.faults }
        ensures failed { OnErr result (HasRisen self.old.faults self.new.faults) }
        ensures answer { result ≡ read_answer self.old (length buf.old) }
        ensures after { self.new ≡ after_read self.old (length buf.old) }
        ensures buffer { buf.new ≡ filled self.old buf.old }
    {
        self.calls = self.calls.saturating_add(1);
        if self.fails.contains(&self.calls) {
            self.faults = self.faults.saturating_add(1);
            return Err(Failed);
        }
        let left = &self.bytes[self.at..];
        let count = left.len().min(self.piece).min(buf.len());
        copy_front(buf, &left[..count]);
        self.at += count;
        Ok(count)
    }
}

#[cfg(test)]
mod tests {
    use super::*;
    use std::test::Fail;

    // Whether a read into the buffer has this answer and leaves the buffer so.
    fn reads(
        source: &mut MemSource,
        buf: &mut [u8],
        answer: Result<usize, Failed>,
        filled: &[u8],
    ) -> bool {
        source.read(buf) == answer && &*buf == filled
    }

    fn gives_all(source: &mut MemSource) -> bool {
        let mut buf = [b'-'; 4];
        reads(source, &mut buf, Ok(2), b"ab--")
            && reads(source, &mut buf, Err(Failed), b"ab--")
            && reads(source, &mut buf[1..2], Ok(1), b"c")
            && reads(source, &mut buf, Ok(2), b"de--")
            && reads(source, &mut buf, Ok(0), b"de--")
    }

    #[test]
    fn gives_pieces_of_two_and_fails_at_the_second_read(rt: HostRuntime) -> Result<(), Fail> {
        let bytes = b"abcde".to_vec(rt.alloc())?;
        let fails = vec![in rt.alloc(); 2u64]?;
        let mut source = MemSource::new(bytes, 2, fails);
        assert!(rt; gives_all(&mut source));
        Ok(())
    }
}
