ghost use Rattle.mp_types.specs.Count.{HasRisen};
ghost use Rattle.std.specs.Prelude.{◌≤◌, OnOk, OnErr};
ghost use Rattle.mp_record.specs.Appends.{Appends, AppendsFront};

use mp_io::{Failed, Sink};

/// Appends all bytes, in as many writes as it takes. After a failure a front of them stands in the sink.
pub fn write_all<K: Sink>(sink: &mut K, bytes: &[u8]) -> Result<(), Failed>
    ensures all { OnOk result (Appends (K.held sink.old) bytes.now (K.held sink.new)) }
    ensures front { AppendsFront (K.held sink.old) bytes.now (K.held sink.new) }
    ensures faults_grow { K.faults sink.old ≤ K.faults sink.new }
    ensures failed { OnErr result (HasRisen (K.faults sink.old) (K.faults sink.new)) }
{
    let mut rest = bytes;
    while !rest.is_empty() {
        let count = sink.write(rest)?;
        rest = &rest[count..];
    }
    Ok(())
}
