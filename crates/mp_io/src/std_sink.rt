ghost use Rattle.mp_types.specs.Count.{HasRisen};
ghost use Rattle.std.specs.Prelude.{◌≡◌, ◌<◌, ◌≤◌, length, None, if◌then◌else◌, is_ok, IfOk, OnErr};
ghost use Rattle.std.specs.Io.KnownBytes.{WriteAppends};
ghost use Rattle.mp_io.specs.Bytes.{Writes};
ghost use Rattle.mp_types.specs.Count.{risen};

use crate::sink::Sink;
use crate::source::Failed;
use std::io::Write;
use std::marker::Model;

/// A writer of the host as a sink. Contracts see the writer and the count of writes that failed.
/// It keeps no bytes back: a write is one write of the writer.
#[derive(Drop)]
pub struct StdSink<W> {
    writer: W,
    faults: u64,
}

impl<W> Model for StdSink<W> {
    ghost use Rattle.std.specs.Prelude.{ℕ};
    ghost use Rattle.std.specs.Coded.{coded×, coded_ℕ};

    ghost Value = { W × ℕ };

    ghost coded = { coded× W.code coded_ℕ };

    ghost view = { λ a. (a.writer, a.faults) };
}

impl<W> StdSink<W> {
    /// A sink into the writer.
    pub fn new(writer: W) -> Self
        ensures { result ≡ (writer, 0) }
    {
        StdSink { writer, faults: 0 }
    }
}

impl<W: Write> Sink for StdSink<W> {
    ghost held = { λ _. None };

    ghost faults = { λ sink. sink.1 };

    fn write(&mut self, piece: &[u8]) -> Result<usize, Failed>
        ensures fits { IfOk result (λ n. n ≤ length piece.now) }
        ensures some { IfOk result (λ n. 0 < length piece.now → 0 < n) }
        ensures told { Writes None piece.now result None }
        ensures faults_grow { self.old.1 ≤ self.new.1 }
        ensures failed { OnErr result (HasRisen self.old.1 self.new.1) }
        ensures writer { WriteAppends (W.contents self.old.0) (W.contents self.new.0) result piece.now }
        ensures count { self.new.1 ≡ (if is_ok result then self.old.1 else risen self.old.1) }
    {
        match self.writer.write(piece) {
            Ok(count) if count > 0 || piece.is_empty() => Ok(count),
            _ => {
                self.faults = self.faults.saturating_add(1);
                Err(Failed)
            }
        }
    }
}

#[cfg(test)]
mod tests {
    use super::*;

    #[test]
    fn writes_to_the_writer(rt: HostRuntime) {
        let mut sink = StdSink::new(Vec::<u8>::new(rt.alloc()));
        let answers = [sink.write(b"abc"), sink.write(b"")];
        let told = answers == [Ok(3), Ok(0)] && sink.faults == 0;
        let written = sink.writer.as_slice() == b"abc".as_slice();
        drop(sink);
        assert!(rt; told && written);
    }

    #[test]
    fn fails_where_the_writer_takes_nothing(rt: HostRuntime) {
        let mut full = [0u8; 2];
        let mut sink = StdSink::new(full.as_mut_slice());
        let answers = [sink.write(b"abc"), sink.write(b"c")];
        assert!(rt; answers == [Ok(2), Err(Failed)] && sink.faults == 1);
    }
}
