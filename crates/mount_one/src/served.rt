ghost use Rattle.std.specs.Prelude.{◌≡◌, ℕ, List, Option, Some, ◌↔◌, ◌⊎◌, IsTrue, IfOk, IfErr};
ghost use Rattle.mp_types.specs.Count.{HasRisen};
ghost use Rattle.mp_script.specs.declared.cause.ScriptCause.{ScriptCause};
ghost use Rattle.mp_script.specs.declared.cause.What.{What};
ghost use Rattle.mount_model.specs.declared.request.Line.{Line};
ghost use Rattle.mp_script.specs.ScriptText.{Bad};
ghost use Rattle.mount_one.specs.Headline.{AreWords, IsServed, Spells, SpellsNone, IsTooLong, WritesRecord, WritesFront, IsRefusal, Refuses, Ends};
ghost use Rattle.mount_model.specs.Run.{AreRising};
ghost use Rattle.mount_one.specs.Reading.{IsSpent};

use crate::reading::{ReadFault, read_all};
use crate::status::Status;
use mount_core::Core;
use mount_model::Script;
use mp_driver::{Schedule, drive};
use mp_io::{Clock, Sink, Source};
use mp_record::{PrintFault, print_record};
use mp_script::{MAX_BYTES, ScriptError, What, read_script};
use mp_types::{Opts, Text};
use std::alloc::Global;
use store_trait::Store;

fn are_words(words: &[Text]) -> bool
    ensures { IsTrue result ↔ AreWords words.now }
{
    match words {
        [word] => word.as_str() == "run",
        _ => false,
    }
}

// The script, or the status that says why there is none.
fn script_from<S: Source>(alloc: Global, source: &mut S) -> Result<Script, Status>
    ensures spelled { IfOk result (λ script. Spells (S.left source.old) script × IsSpent (S.left source.new)) }
    ensures rising { IfOk result (AreRising 0) }
    ensures refused { IfErr result (λ status. Refuses (S.left source.old) status (S.left source.new) (HasRisen (S.faults source.old) (S.faults source.new))) }
{
    let bytes = match read_all(alloc, source, MAX_BYTES) {
        Ok(bytes) => bytes,
        Err(ReadFault::Source) => return Err(Status::SourceFault),
        Err(ReadFault::TooLong) => return Err(Status::TooLong(What::Bytes)),
        Err(ReadFault::Memory) => return Err(Status::NoMemory),
    };
    match read_script(alloc, bytes.as_slice()) {
        Ok(script) => Ok(script),
        Err(ScriptError::Bad { line, cause }) => Err(Status::BadScript { line, cause }),
        Err(ScriptError::TooLong(what)) => Err(Status::TooLong(what)),
        Err(ScriptError::Memory) => Err(Status::NoMemory),
    }
}

// Serves a script and writes its record.
fn serve<K: Sink, T: Store, C: Clock>(
    alloc: Global,
    script: Script,
    sink: &mut K,
    store: &mut T,
    clock: &mut C,
) -> Status
    requires { AreRising 0 script }
    ensures ends { (input : Option (List ℕ)) → Spells input script → Ends result
        (WritesRecord input (T.position store.old) (T.is_alone store.old) (T.is_honest store.old) (T.history store.new) (T.faults store.old) (T.faults store.new) (K.held sink.old) (K.held sink.new))
        (WritesFront input (T.position store.old) (T.is_alone store.old) (T.is_honest store.old) (T.history store.new) (T.faults store.old) (T.faults store.new) (K.held sink.old) (K.held sink.new))
        (HasRisen (K.faults sink.old) (K.faults sink.new))
        ((sink.new ≡ sink.old) × (store.new ≡ store.old)) }
    ensures honest { T.is_honest store.old → T.is_honest store.new }
{
    let core = match Core::new(alloc, script, Opts::default()) {
        Ok(core) => core,
        Err(_) => return Status::NoMemory,
    };
    let Ok(core) = drive(alloc, core, store, clock, &Schedule::Oldest) else {
        unreachable!()
    };
    let printed = print_record(alloc, core.record(), sink);
    drop(core);
    match printed {
        Ok(()) => Status::Done,
        Err(PrintFault::Sink) => Status::SinkFault,
        Err(PrintFault::Memory) => Status::NoMemory,
    }
}

/// Reads a script from the source, serves it over the store on one thread, and writes the record to the sink.
/// It always returns.
pub fn run<S: Source, K: Sink, T: Store, C: Clock>(
    alloc: Global,
    words: &[Text],
    source: &mut S,
    sink: &mut K,
    store: &mut T,
    clock: &mut C,
) -> Status
    // The script was read to its end, and what was written is the text of the record of a run of it.
    ensures done { result ≡ Status.Done → IsSpent (S.left source.new)
        × WritesRecord (S.left source.old) (T.position store.old) (T.is_alone store.old) (T.is_honest store.old) (T.history store.new) (T.faults store.old) (T.faults store.new) (K.held sink.old) (K.held sink.new) }

    // Each refusal comes for its cause alone, and then nothing is written and no bucket call is made.
    ensures usage { (result ≡ Status.Usage) ↔ (AreWords words.now → ⊥) }
    ensures bad_script { (line : ℕ) (cause : ScriptCause) → result ≡ Status.BadScript line cause → SpellsNone (S.left source.old) (Bad line cause) × IsSpent (S.left source.new) }
    ensures too_long { (what : What) → result ≡ Status.TooLong what → IsTooLong (S.left source.old) what }
    ensures source_fault { result ≡ Status.SourceFault → HasRisen (S.faults source.old) (S.faults source.new) }
    ensures refused { IsRefusal result → (sink.new ≡ sink.old) × (store.new ≡ store.old) × (clock.new ≡ clock.old) }

    // What was written before a failure is a front of such a text.
    ensures sink_fault { result ≡ Status.SinkFault → HasRisen (K.faults sink.old) (K.faults sink.new)
        × WritesFront (S.left source.old) (T.position store.old) (T.is_alone store.old) (T.is_honest store.old) (T.history store.new) (T.faults store.old) (T.faults store.new) (K.held sink.old) (K.held sink.new) }
    ensures no_memory { result ≡ Status.NoMemory → ((sink.new ≡ sink.old) × (store.new ≡ store.old))
        ⊎ WritesFront (S.left source.old) (T.position store.old) (T.is_alone store.old) (T.is_honest store.old) (T.history store.new) (T.faults store.old) (T.faults store.new) (K.held sink.old) (K.held sink.new) }

    // Where the words are right, the bytes are a script, and neither source nor sink failed, the run is done, or
    // there was no memory.
    ensures complete { (bytes : List ℕ) (script : List Line) → AreWords words.now → S.left source.old ≡ Some bytes → Spells (Some bytes) script
        → (HasRisen (S.faults source.old) (S.faults source.new) → ⊥) → (HasRisen (K.faults sink.old) (K.faults sink.new) → ⊥) → IsServed result }

    // An honest store stays honest: its history at exit is legal.
    ensures honest { T.is_honest store.old → T.is_honest store.new }
{
    if !are_words(words) {
        return Status::Usage;
    }
    match script_from(alloc, source) {
        Ok(script) => serve(alloc, script, sink, store, clock),
        Err(status) => status,
    }
}
