ghost use Rattle.std.specs.Prelude.{◌≡◌, ◌++◌, flat_map, codes, decimal, OnOk};
ghost use Rattle.mp_record.specs.RecordText.{item_text, page_text, answer_text, event_text, drop_text, owner_text, escaped, call_text, ask_text};

use crate::escape::push_escaped;
use bucket_model::{Brief, Page, PageItem};
use itoa::Buffer;
use mount_model::{Ask, AskedCall, Event, Owner};
use mp_types::{ETag, Key, Text};
use std::alloc::AllocError;

// Adds a number in decimal.
fn push_number(out: &mut Vec<u8>, number: u64) -> Result<(), AllocError>
    ensures { OnOk result (out.new.items ≡ out.old.items ++ decimal number) }
{
    out.extend_from_slice(Buffer::new().format(number).as_bytes())
}

/// Adds a word and the number behind it.
pub fn push_counted(out: &mut Vec<u8>, word: &[u8], number: u64) -> Result<(), AllocError>
    ensures { OnOk result (out.new.items ≡ out.old.items ++ (word.now ++ decimal number)) }
{
    out.extend_from_slice(word)?;
    push_number(out, number)
}

fn push_found(out: &mut Vec<u8>, etag: &ETag, size: u64) -> Result<(), AllocError>
    ensures { OnOk result (out.new.items ≡ out.old.items ++ (codes "found " ++ (etag.now ++ (codes " " ++ decimal size)))) }
{
    out.extend_from_slice(b"found ")?;
    out.extend_from_slice(etag.as_bytes())?;
    push_counted(out, b" ", size)
}

/// Adds the answer of a PutObject that made an object with this entity tag.
pub fn push_made(out: &mut Vec<u8>, etag: &ETag) -> Result<(), AllocError>
    ensures { OnOk result (out.new.items ≡ out.old.items ++ (codes "made " ++ etag.now)) }
{
    out.extend_from_slice(b"made ")?;
    out.extend_from_slice(etag.as_bytes())
}

fn push_object(out: &mut Vec<u8>, key: &Key, etag: &ETag, size: u64) -> Result<(), AllocError>
    ensures { OnOk result (out.new.items ≡ out.old.items ++ item_text (PageItem.Object key.now etag.now size)) }
{
    push_counted(out, b" o:", size)?;
    out.extend_from_slice(b":")?;
    out.extend_from_slice(etag.as_bytes())?;
    push_named(out, b":", key)
}

fn push_page_item(out: &mut Vec<u8>, item: &PageItem) -> Result<(), AllocError>
    ensures { OnOk result (out.new.items ≡ out.old.items ++ item_text item.now) }
{
    match item {
        PageItem::Object { key, etag, size } => push_object(out, key, etag, *size),
        PageItem::Prefix(prefix) => {
            out.extend_from_slice(b" p:")?;
            push_text(out, prefix)
        }
    }
}

fn push_page_items(out: &mut Vec<u8>, items: &[PageItem]) -> Result<(), AllocError>
    ensures { OnOk result (out.new.items ≡ out.old.items ++ flat_map item_text items.now) }
{
    for item in items {
        push_page_item(out, item)?;
    }
    Ok(())
}

fn push_page(out: &mut Vec<u8>, page: &Page) -> Result<(), AllocError>
    ensures { OnOk result (out.new.items ≡ out.old.items ++ page_text page.now) }
{
    let items = page.items.as_slice();
    let start: &[u8] = if page.more { b"more " } else { b"last " };
    push_counted(out, start, items.len() as u64)?;
    push_page_items(out, items)
}

fn push_answer(out: &mut Vec<u8>, answer: &Brief) -> Result<(), AllocError>
    ensures { OnOk result (out.new.items ≡ out.old.items ++ answer_text answer.now) }
{
    match answer {
        Brief::Found { etag, size } => push_found(out, etag, *size),
        Brief::Missing => out.extend_from_slice(b"missing"),
        Brief::Yes => out.extend_from_slice(b"yes"),
        Brief::No => out.extend_from_slice(b"no"),
        Brief::Page(page) => {
            out.extend_from_slice(b"page ")?;
            push_page(out, page)
        }
        Brief::Bytes { length } => push_counted(out, b"bytes ", *length),
        Brief::Changed => out.extend_from_slice(b"changed"),
        Brief::Gone => out.extend_from_slice(b"gone"),
        Brief::Made(etag) => push_made(out, etag),
        Brief::Upload(upload) => push_counted(out, b"upload ", *upload),
        Brief::Stored => out.extend_from_slice(b"stored"),
        Brief::NoUpload => out.extend_from_slice(b"noupload"),
        Brief::Fault => out.extend_from_slice(b"fault"),
        Brief::NoMemory => out.extend_from_slice(b"nomemory"),
    }
}

fn push_begin(out: &mut Vec<u8>, line: u32, time: u64) -> Result<(), AllocError>
    ensures { OnOk result (out.new.items ≡ out.old.items ++ event_text (Event.Begin line time)) }
{
    push_counted(out, b"B ", u64::from(line))?;
    push_counted(out, b" ", time)?;
    out.extend_from_slice(b"\n")
}

fn push_take(out: &mut Vec<u8>, job: u64, time: u64, from: u64) -> Result<(), AllocError>
    ensures { OnOk result (out.new.items ≡ out.old.items ++ event_text (Event.Take job time from)) }
{
    push_counted(out, b"T ", job)?;
    push_counted(out, b" ", time)?;
    push_counted(out, b" ", from)?;
    out.extend_from_slice(b"\n")
}

fn push_done(out: &mut Vec<u8>, job: u64, position: u64, answer: &Brief) -> Result<(), AllocError>
    ensures { OnOk result (out.new.items ≡ out.old.items ++ event_text (Event.Done job position answer.now)) }
{
    push_counted(out, b"D ", job)?;
    push_counted(out, b" ", position)?;
    out.extend_from_slice(b" ")?;
    push_answer(out, answer)?;
    out.extend_from_slice(b"\n")
}

/// Adds an event's line.
pub fn push_event(out: &mut Vec<u8>, event: &Event) -> Result<(), AllocError>
    ensures { OnOk result (out.new.items ≡ out.old.items ++ event_text event.now) }
{
    match event {
        Event::Begin { line, time } => push_begin(out, *line, *time),
        Event::Take { job, time, from } => push_take(out, *job, *time, *from),
        Event::Done {
            job,
            position,
            answer,
        } => push_done(out, *job, *position, answer),
    }
}

/// Adds the line of a job that is no longer wanted.
pub fn push_drop(out: &mut Vec<u8>, job: u64) -> Result<(), AllocError>
    ensures { OnOk result (out.new.items ≡ out.old.items ++ drop_text job) }
{
    push_counted(out, b"X ", job)?;
    out.extend_from_slice(b"\n")
}

fn push_owner(out: &mut Vec<u8>, owner: Owner) -> Result<(), AllocError>
    ensures { OnOk result (out.new.items ≡ out.old.items ++ owner_text owner) }
{
    match owner {
        Owner::Line(number) => push_counted(out, b"L", u64::from(number)),
        Owner::Stream(number) => push_counted(out, b"S", u64::from(number)),
        Owner::Writer(number) => push_counted(out, b"W", u64::from(number)),
    }
}

/// Adds a text as one word, with the bytes escaped that would end it.
pub fn push_text(out: &mut Vec<u8>, text: &Text) -> Result<(), AllocError>
    ensures { OnOk result (out.new.items ≡ out.old.items ++ escaped text.now) }
{
    push_escaped(out, text.as_str().as_bytes())
}

// Adds a word and the key behind it.
fn push_named(out: &mut Vec<u8>, word: &[u8], key: &Key) -> Result<(), AllocError>
    ensures { OnOk result (out.new.items ≡ out.old.items ++ (word.now ++ escaped key.now)) }
{
    out.extend_from_slice(word)?;
    push_escaped(out, key.as_str().as_bytes())
}

fn push_list(out: &mut Vec<u8>, prefix: &Text, after: &Text, max: u32) -> Result<(), AllocError>
    ensures { OnOk result (out.new.items ≡ out.old.items ++ call_text (AskedCall.List prefix.now after.now max)) }
{
    out.extend_from_slice(b"list ")?;
    push_text(out, prefix)?;
    out.extend_from_slice(b" ")?;
    push_text(out, after)?;
    push_counted(out, b" ", u64::from(max))
}

fn push_get(out: &mut Vec<u8>, key: &Key, etag: &ETag, from: u64, to: u64) -> Result<(), AllocError>
    ensures { OnOk result (out.new.items ≡ out.old.items ++ call_text (AskedCall.Get key.now etag.now from to)) }
{
    push_named(out, b"get ", key)?;
    out.extend_from_slice(b" ")?;
    out.extend_from_slice(etag.as_bytes())?;
    push_counted(out, b" ", from)?;
    push_counted(out, b" ", to)
}

fn push_part(
    out: &mut Vec<u8>,
    upload: u64,
    number: u32,
    from: u64,
    to: u64,
) -> Result<(), AllocError>
    ensures { OnOk result (out.new.items ≡ out.old.items ++ call_text (AskedCall.Part upload number from to)) }
{
    push_counted(out, b"part ", upload)?;
    push_counted(out, b" ", u64::from(number))?;
    push_counted(out, b" ", from)?;
    push_counted(out, b" ", to)
}

fn push_complete(out: &mut Vec<u8>, upload: u64, parts: u32) -> Result<(), AllocError>
    ensures { OnOk result (out.new.items ≡ out.old.items ++ call_text (AskedCall.Complete upload parts)) }
{
    push_counted(out, b"complete ", upload)?;
    push_counted(out, b" ", u64::from(parts))
}

fn push_put(out: &mut Vec<u8>, key: &Key, length: u64) -> Result<(), AllocError>
    ensures { OnOk result (out.new.items ≡ out.old.items ++ call_text (AskedCall.Put key.now length)) }
{
    push_named(out, b"put ", key)?;
    push_counted(out, b" ", length)
}

fn push_call(out: &mut Vec<u8>, call: &AskedCall) -> Result<(), AllocError>
    ensures { OnOk result (out.new.items ≡ out.old.items ++ call_text call.now) }
{
    match call {
        AskedCall::Head { key } => push_named(out, b"head ", key),
        AskedCall::Probe { key } => push_named(out, b"probe ", key),
        AskedCall::List { prefix, after, max } => push_list(out, prefix, after, *max),
        AskedCall::Get {
            key,
            etag,
            from,
            to,
        } => push_get(out, key, etag, *from, *to),
        AskedCall::Delete { key } => push_named(out, b"delete ", key),
        AskedCall::Put { key, length } => push_put(out, key, *length),
        AskedCall::Create { key } => push_named(out, b"create ", key),
        AskedCall::Part {
            upload,
            number,
            from,
            to,
        } => push_part(out, *upload, *number, *from, *to),
        AskedCall::Complete { upload, parts } => push_complete(out, *upload, *parts),
        AskedCall::Abort { upload } => push_counted(out, b"abort ", *upload),
    }
}

/// Adds the line of a call that the mount asks for.
pub fn push_ask(out: &mut Vec<u8>, ask: &Ask) -> Result<(), AllocError>
    ensures { OnOk result (out.new.items ≡ out.old.items ++ ask_text ask.now) }
{
    push_counted(out, b"A ", ask.job)?;
    out.extend_from_slice(b" ")?;
    push_owner(out, ask.owner)?;
    out.extend_from_slice(b" ")?;
    push_call(out, &ask.call)?;
    out.extend_from_slice(b"\n")
}
