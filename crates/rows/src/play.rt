ghost use Rattle.std.specs.Prelude.{◌≡◌, []};
ghost use Rattle.std.specs.List.{AllByRecursion};
ghost use Rattle.mp_types.specs.Options.{AreWithin};
ghost use Rattle.bucket_model.specs.History.{IsChange};

use crate::copies::push_script;
use crate::cut::cut;
use crate::row::{Row, take_word};
use crate::tell::{tell_end, tell_memory, tell_name, tell_refusal, tell_unknown};
use bucket_model::Call;
use fault_store::{Faulty, Meddled, When};
use mem_store::MemStore;
use mount_core::Core;
use mp_driver::drive;
use mp_script::read_script;
use mp_types::Opts;
use std::alloc::{AllocError, Global};
use std::mem;
use store_trait::Store;

// Begins these lines, one after another, and makes no call. A line that may not begin doesn't.
fn begin_all(core: &mut Core, lines: &[u64]) {
    for number in lines {
        if let Ok(line) = u32::try_from(*number) {
            if core.startable(line) {
                core.begin(line, 0);
            }
        }
    }
}

// Serves a mount that has done nothing to its end, or only begins lines of it, and tells what came of it.
fn serve<S: Store>(
    alloc: Global,
    row: &mut Row,
    core: Core,
    store: &mut S,
    out: &mut Vec<u8>,
) -> Result<(), AllocError>
    requires { core.steps ≡ [] }
{
    if let Some(lines) = &row.begins {
        let mut core = core;
        begin_all(&mut core, lines.as_slice());
        let told = tell_end(alloc, row, &core, store.mark(), out);
        drop(core);
        return told;
    }
    match drive(alloc, core, store, &mut row.clock, &row.schedule) {
        Ok(core) => {
            let told = tell_end(alloc, row, &core, store.mark(), out);
            drop(core);
            told
        }
        Err(error) => Err(error),
    }
}

// Serves a script over a store.
fn serve_over<S: Store>(
    alloc: Global,
    row: &mut Row,
    options: Opts,
    script: &[u8],
    store: &mut S,
    out: &mut Vec<u8>,
) -> Result<(), AllocError>
    requires { AreWithin options }
{
    match read_script(alloc, script) {
        Ok(lines) => match Core::new(alloc, lines, options) {
            Ok(core) => serve(alloc, row, core, store, out),
            Err(error) => Err(error),
        },
        Err(error) => tell_refusal(error, out),
    }
}

// An empty store in which calls fail, and which others change.
fn store_of(
    alloc: Global,
    faults: Vec<(u64, When)>,
    changes: Vec<(u64, Call)>,
) -> Result<Meddled<Faulty<MemStore>>, AllocError>
    requires { AllByRecursion (λ change. IsChange change.1) changes.items }
{
    let store = Faulty::new(alloc, MemStore::new(alloc)?, faults)?;
    Meddled::new(alloc, store, changes)
}

// Takes all words. Whether each is one: the first that isn't is told.
fn take_words(
    alloc: Global,
    row: &mut Row,
    options: &mut Opts,
    changes: &mut Vec<(u64, Call)>,
    words: &[u8],
    out: &mut Vec<u8>,
) -> Result<bool, AllocError>
    requires within { AreWithin options.old }
    requires changes { AllByRecursion (λ change. IsChange change.1) changes.old.items }
    ensures within { AreWithin options.new }
    ensures changes { AllByRecursion (λ change. IsChange change.1) changes.new.items }
{
    if words.is_empty() {
        return Ok(true);
    }
    for word in words.split(|byte| *byte == b' ') {
        if !take_word(alloc, row, options, changes, word)? {
            tell_unknown(word, out)?;
            return Ok(false);
        }
    }
    Ok(true)
}

// Plays a row of these words.
fn play_row(
    alloc: Global,
    row: &mut Row,
    words: &[u8],
    lines: &[u8],
    out: &mut Vec<u8>,
) -> Result<(), AllocError> {
    let mut options = Opts::default();
    let mut changes = Vec::new(alloc);
    if !take_words(alloc, row, &mut options, &mut changes, words, out)? {
        return Ok(());
    }
    let mut script = Vec::new(alloc);
    push_script(&mut script, lines)?;
    let faults = mem::replace(&mut row.faults, Vec::new(alloc));
    let mut store = store_of(alloc, faults, changes)?;
    serve_over(alloc, row, options, script.as_slice(), &mut store, out)
}

/// Plays a row, which begins with its name and its words.
pub fn play(alloc: Global, text: &[u8], out: &mut Vec<u8>) -> Result<(), AllocError> {
    let parted = cut(text, b'\n');
    let Some(named) = parted.before.strip_prefix(b"= ") else {
        return tell_unknown(parted.before, out);
    };
    let named = cut(named, b' ');
    tell_name(named.before, out)?;
    let mut row = Row::new(alloc)?;
    match play_row(alloc, &mut row, named.after, parted.after, out) {
        Ok(()) => Ok(()),
        Err(_) => tell_memory(out),
    }
}
