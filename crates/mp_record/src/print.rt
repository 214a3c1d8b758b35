ghost use Rattle.mp_types.specs.Count.{HasRisen};
ghost use Rattle.std.specs.Prelude.{◌≡◌, ◌≤◌, [], ◌++◌, OnOk, IsErrOf};
ghost use Rattle.hex.specs.Hex.{encode_lower};
ghost use Rattle.mount_model.specs.Step.{steps_of, IsRow};
ghost use Rattle.mp_record.specs.RecordText.{reply_text, record_text};
ghost use Rattle.mp_record.specs.Appends.{Appends, AppendsFront, AppendsBut};
ghost use Rattle.mp_record.specs.ItemText.{text_as, text_of_kind, items_text};
ghost use Rattle.mp_record.specs.declared.print.PrintFault.TheVariants as print_fault;

use crate::digits::{PIECE, push_digits};
use crate::item_text::{push_ask, push_drop, push_event};
use crate::kind::{KINDS, Kind};
use crate::reply_text::{data_of, push_reply_start};
use crate::steps::split_step;
use crate::write::write_all;
use mount_model::{Answered, Item, Record};
use mp_io::Sink;
use std::alloc::{AllocError, Global};

/// Why a record was not printed as a whole.
#[derive(Clone, Copy, Debug, PartialEq, Eq)]
pub enum PrintFault {
    /// A write failed. The sink has counted it.
    Sink,
    /// There was no memory for a piece of the text.
    Memory,
}

impl From<AllocError> for PrintFault {
    ghost from_gives = { λ _ fault. fault ≡ print_fault.Memory };

    fn from(_error: AllocError) -> PrintFault {
        PrintFault::Memory
    }
}

/// So many bytes of text are gathered before they are written.
const FULL: usize = 65_536;

/// Writes what has been gathered, and keeps its room.
fn send<K: Sink>(gathered: &mut Vec<u8>, sink: &mut K) -> Result<(), PrintFault>
    ensures all { OnOk result (Appends (K.held sink.old) gathered.old.items (K.held sink.new)) }
    ensures empty { OnOk result (gathered.new.items ≡ []) }
    ensures front { AppendsFront (K.held sink.old) gathered.old.items (K.held sink.new) }
    ensures faults_grow { K.faults sink.old ≤ K.faults sink.new }
    ensures failed { IsErrOf result PrintFault.Sink → HasRisen (K.faults sink.old) (K.faults sink.new) }
{
    match write_all(sink, gathered.as_slice()) {
        Ok(()) => {
            gathered.clear();
            Ok(())
        }
        Err(_) => Err(PrintFault::Sink),
    }
}

/// Writes what has been gathered where it has grown past its bound.
fn send_full<K: Sink>(gathered: &mut Vec<u8>, sink: &mut K) -> Result<(), PrintFault>
    ensures rest { OnOk result (AppendsBut (K.held sink.old) gathered.old.items gathered.new.items (K.held sink.new)) }
    ensures front { AppendsFront (K.held sink.old) gathered.old.items (K.held sink.new) }
    ensures faults_grow { K.faults sink.old ≤ K.faults sink.new }
    ensures failed { IsErrOf result PrintFault.Sink → HasRisen (K.faults sink.old) (K.faults sink.new) }
{
    if gathered.len() <= FULL {
        return Ok(());
    }
    send(gathered, sink)
}

/// Gathers bytes in hexadecimal. They are written by pieces, so that their text never stands whole in memory.
fn print_digits<K: Sink>(
    gathered: &mut Vec<u8>,
    bytes: &[u8],
    sink: &mut K,
) -> Result<(), PrintFault>
    ensures rest { OnOk result (AppendsBut (K.held sink.old) (gathered.old.items ++ encode_lower bytes.now) gathered.new.items (K.held sink.new)) }
    ensures front { AppendsFront (K.held sink.old) (gathered.old.items ++ encode_lower bytes.now) (K.held sink.new) }
    ensures faults_grow { K.faults sink.old ≤ K.faults sink.new }
    ensures failed { IsErrOf result PrintFault.Sink → HasRisen (K.faults sink.old) (K.faults sink.new) }
{
    for piece in bytes.chunks(PIECE) {
        push_digits(gathered, piece)?;
        send_full(gathered, sink)?;
    }
    Ok(())
}

/// Gathers a reply's line. What is left in `gathered` is the rest of the text.
fn print_reply<K: Sink>(
    gathered: &mut Vec<u8>,
    answered: &Answered,
    sink: &mut K,
) -> Result<(), PrintFault>
    ensures rest { OnOk result (AppendsBut (K.held sink.old) (gathered.old.items ++ reply_text answered.now) gathered.new.items (K.held sink.new)) }
    ensures front { AppendsFront (K.held sink.old) (gathered.old.items ++ reply_text answered.now) (K.held sink.new) }
    ensures faults_grow { K.faults sink.old ≤ K.faults sink.new }
    ensures failed { IsErrOf result PrintFault.Sink → HasRisen (K.faults sink.old) (K.faults sink.new) }
{
    push_reply_start(gathered, answered)?;
    print_digits(gathered, data_of(&answered.reply), sink)?;
    Ok(gathered.extend_from_slice(b"\n")?)
}

/// Gathers an item's text where it is of this kind. What is left in `gathered` is the rest of the text.
fn print_item<K: Sink>(
    gathered: &mut Vec<u8>,
    kind: Kind,
    item: &Item,
    sink: &mut K,
) -> Result<(), PrintFault>
    ensures rest { OnOk result (AppendsBut (K.held sink.old) (gathered.old.items ++ text_as kind item.now) gathered.new.items (K.held sink.new)) }
    ensures front { AppendsFront (K.held sink.old) (gathered.old.items ++ text_as kind item.now) (K.held sink.new) }
    ensures faults_grow { K.faults sink.old ≤ K.faults sink.new }
    ensures failed { IsErrOf result PrintFault.Sink → HasRisen (K.faults sink.old) (K.faults sink.new) }
{
    match (kind, item) {
        (Kind::Event, Item::Event(event)) => Ok(push_event(gathered, event)?),
        (Kind::Drop, Item::Drop(job)) => Ok(push_drop(gathered, *job)?),
        (Kind::Ask, Item::Ask(ask)) => Ok(push_ask(gathered, ask)?),
        (Kind::Reply, Item::Reply(answered)) => print_reply(gathered, answered, sink),
        _ => Ok(()),
    }
}

/// Gathers the text of the items of one kind. What is left in `gathered` is the rest of the text.
fn print_kind<K: Sink>(
    gathered: &mut Vec<u8>,
    kind: Kind,
    items: &[Item],
    sink: &mut K,
) -> Result<(), PrintFault>
    ensures rest { OnOk result (AppendsBut (K.held sink.old) (gathered.old.items ++ text_of_kind items.now kind) gathered.new.items (K.held sink.new)) }
    ensures front { AppendsFront (K.held sink.old) (gathered.old.items ++ text_of_kind items.now kind) (K.held sink.new) }
    ensures faults_grow { K.faults sink.old ≤ K.faults sink.new }
    ensures failed { IsErrOf result PrintFault.Sink → HasRisen (K.faults sink.old) (K.faults sink.new) }
{
    for item in items {
        print_item(gathered, kind, item, sink)?;
        send_full(gathered, sink)?;
    }
    Ok(())
}

/// Gathers the text of a step's items. What is left in `gathered` is the rest of the text.
fn print_step<K: Sink>(
    gathered: &mut Vec<u8>,
    items: &[Item],
    sink: &mut K,
) -> Result<(), PrintFault>
    ensures rest { OnOk result (AppendsBut (K.held sink.old) (gathered.old.items ++ items_text items.now) gathered.new.items (K.held sink.new)) }
    ensures front { AppendsFront (K.held sink.old) (gathered.old.items ++ items_text items.now) (K.held sink.new) }
    ensures faults_grow { K.faults sink.old ≤ K.faults sink.new }
    ensures failed { IsErrOf result PrintFault.Sink → HasRisen (K.faults sink.old) (K.faults sink.new) }
{
    for kind in KINDS {
        print_kind(gathered, kind, items, sink)?;
    }
    Ok(())
}

/// Gathers the text of a row's steps. What is left in `gathered` is the rest of the text.
fn print_steps<K: Sink>(
    gathered: &mut Vec<u8>,
    items: &[Item],
    sink: &mut K,
) -> Result<(), PrintFault>
    requires { IsRow items.now }
    ensures rest { OnOk result (AppendsBut (K.held sink.old) (gathered.old.items ++ record_text (steps_of items.now)) gathered.new.items (K.held sink.new)) }
    ensures front { AppendsFront (K.held sink.old) (gathered.old.items ++ record_text (steps_of items.now)) (K.held sink.new) }
    ensures faults_grow { K.faults sink.old ≤ K.faults sink.new }
    ensures failed { IsErrOf result PrintFault.Sink → HasRisen (K.faults sink.old) (K.faults sink.new) }
{
    let mut rest = items;
    while let Some((step, behind)) = split_step(rest) {
        print_step(gathered, step, sink)?;
        rest = behind;
    }
    Ok(())
}

/// Writes the text of a record. After a fault a front of it stands in the sink.
pub fn print_record<K: Sink>(alloc: Global, record: &Record, sink: &mut K) -> Result<(), PrintFault>
    ensures all { OnOk result (Appends (K.held sink.old) (record_text «record».now.steps) (K.held sink.new)) }
    ensures front { AppendsFront (K.held sink.old) (record_text «record».now.steps) (K.held sink.new) }
    ensures faults_grow { K.faults sink.old ≤ K.faults sink.new }
    ensures failed { IsErrOf result PrintFault.Sink → HasRisen (K.faults sink.old) (K.faults sink.new) }
{
    let mut gathered = Vec::new(alloc);
    print_steps(&mut gathered, record.items(), sink)?;
    send(&mut gathered, sink)
}
