ghost use Rattle.mp_types.specs.Count.{HasRisen};
ghost use Rattle.std.specs.Prelude.{◌≡◌, ◌≤◌, length, None, if◌then◌else◌, is_ok, IfOk, OnErr};
ghost use Rattle.std.specs.Io.KnownBytes.{ReadConsumes};
ghost use Rattle.mp_io.specs.Bytes.{Reads};
ghost use Rattle.mp_types.specs.Count.{risen};

use crate::source::{Failed, Source};
use std::io::Read;
use std::marker::Model;

/// A reader of the host as a source. Contracts see the reader and the count of reads that failed.
#[derive(Drop)]
pub struct StdSource<R> {
    reader: R,
    faults: u64,
}

impl<R> Model for StdSource<R> {
    ghost use Rattle.std.specs.Prelude.{ℕ};
    ghost use Rattle.std.specs.Coded.{coded×, coded_ℕ};

    ghost Value = { R × ℕ };

    ghost coded = { coded× R.code coded_ℕ };

    ghost view = { λ a. (a.reader, a.faults) };
}

impl<R> StdSource<R> {
    /// A source of what the reader gives.
    pub fn new(reader: R) -> Self
        ensures { result ≡ (reader, 0) }
    {
        StdSource { reader, faults: 0 }
    }
}

impl<R: Read> Source for StdSource<R> {
    ghost left = { λ _. None };

    ghost faults = { λ source. source.1 };

    fn read(&mut self, buf: &mut [u8]) -> Result<usize, Failed>
        ensures fits { IfOk result (λ n. n ≤ length buf.old) }
        ensures told { Reads None buf.old result None buf.new }
        ensures faults_grow { self.old.1 ≤ self.new.1 }
        ensures failed { OnErr result (HasRisen self.old.1 self.new.1) }
        ensures reader { ReadConsumes (R.remaining self.old.0) (R.remaining self.new.0) result buf.new }
        ensures count { self.new.1 ≡ (if is_ok result then self.old.1 else risen self.old.1) }
    {
        match self.reader.read(buf) {
            Ok(count) => Ok(count),
            Err(_) => {
                self.faults = self.faults.saturating_add(1);
                Err(Failed)
            }
        }
    }
}

#[cfg(test)]
mod tests {
    use super::*;
    use std::io;
    use std::io::Cursor;

    // A reader that always fails.
    #[derive(Drop)]
    struct Broken;

    impl Read for Broken {
        fn read(&mut self, _buf: &mut [u8]) -> io::Result<usize> {
            Err(io::Error::from(io::ErrorKind::Other))
        }
    }

    #[test]
    fn gives_what_the_reader_gives(rt: HostRuntime) {
        let mut source = StdSource::new(Cursor::new(b"abc".as_slice()));
        let mut buf = [b'-'; 2];
        let first = source.read(&mut buf) == Ok(2) && &buf == b"ab";
        let second = source.read(&mut buf) == Ok(1) && &buf == b"cb";
        assert!(rt; first && second && source.read(&mut buf) == Ok(0));
    }

    #[test]
    fn counts_a_failed_read(rt: HostRuntime) {
        let mut source = StdSource::new(Broken);
        let answer = source.read(&mut [0u8; 2]);
        assert!(rt; answer == Err(Failed) && source.faults == 1);
    }
}
