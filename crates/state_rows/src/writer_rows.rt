ghost use Rattle.std.specs.Prelude.{IsTrue, IfOk};
ghost use Rattle.job_table.specs.declared.purpose.Purpose.{Purpose as PurposeOf};
ghost use Rattle.job_table.specs.declared.purpose.Purpose.TheVariants as purpose;
ghost use Rattle.file_handles.specs.Writing.{IsWriting, MayComeBack, MayHear};

use crate::print::{say, say_due, say_errno, say_state, say_whether, say_with};
use crate::words::{line_number, number, only};
use bucket_model::Brief;
use file_handles::{answered, hear, open, wait, write};
use job_table::Purpose;
use mount_model::{Handle, Waiter, Writer};
use mp_handles::Handles;
use mp_types::{Data, Key};
use part_uploader::Uploader;
use std::alloc::{AllocError, Global};
use std::marker::Model;

type Table = Handles<Handle<Uploader>>;

/// A table in which a writer stands under the name 7 of process 1, and whether a call of it is out and may come back: that for its
/// upload, or its abort.
#[derive(Drop)]
pub struct Desk {
    handles: Table,
    creates: bool,
    aborts: bool,
}

impl Model for Desk {
    ghost use Rattle.std.specs.Prelude.{Bool, IsTrue};
    ghost use Rattle.job_table.specs.declared.purpose.Purpose.TheVariants as purpose;
    ghost use Rattle.file_handles.specs.Writing.{MayHear};

    ghost Value = { Bool };

    ghost view = { λ a. a.creates };

    ghost invariant = { λ a. (IsTrue a.creates → MayHear purpose.Create (1, 7) a.handles) × (IsTrue a.aborts → MayHear purpose.Abort (1, 7) a.handles) };
}

// Puts the writer into the table.
fn table_with(alloc: Global, key: Key, upload: Uploader) -> Result<Table, AllocError>
    ensures { IfOk result (λ handles. (purpose : PurposeOf) → MayComeBack purpose upload → MayHear purpose (1, 7) handles) }
{
    let mut handles = Handles::new(alloc);
    let handle = Handle::Writing(Writer {
        line: 3,
        key,
        upload,
        waiter: Waiter::Nobody,
    });
    match open(&mut handles, 1, 7, handle) {
        Ok(()) => Ok(handles),
        Err(error) => {
            drop(handles);
            Err(error)
        }
    }
}

fn key(alloc: Global) -> Option<Key> {
    Key::parse(alloc, "a/b").ok()
}

fn opened(alloc: Global) -> Option<Desk> {
    let key = key(alloc)?;
    let handles = table_with(alloc, key, Uploader::new(alloc, 4)).ok()?;
    Some(Desk {
        handles,
        creates: false,
        aborts: false,
    })
}

fn creating(alloc: Global) -> Option<Desk> {
    let key = key(alloc)?;
    let mut upload = Uploader::new(alloc, 4);
    upload.finish();
    upload.asked();
    let handles = table_with(alloc, key, upload).ok()?;
    Some(Desk {
        handles,
        creates: true,
        aborts: false,
    })
}

fn giving_up(alloc: Global) -> Option<Desk> {
    let key = key(alloc)?;
    let mut upload = Uploader::new(alloc, 4);
    upload.finish();
    upload.asked();
    upload.created(5);
    upload.lack();
    upload.closing();
    upload.asked();
    let handles = table_with(alloc, key, upload).ok()?;
    Some(Desk {
        handles,
        creates: false,
        aborts: true,
    })
}

/// A table with a writer that stands so.
pub fn desk_with(alloc: Global, standing: &str) -> Option<Desk> {
    match standing {
        "open" => opened(alloc),
        "creating" => creating(alloc),
        "giving_up" => giving_up(alloc),
        _ => None,
    }
}

fn is_writing(handles: &Table) -> bool
    ensures { IsTrue result → IsWriting (1, 7) handles.now }
{
    matches!(handles.get(1, 7), Some(Handle::Writing(_)))
}

// So many bytes go to the writer.
fn give(desk: &mut Desk, arguments: &[&str], printed: &mut Vec<u8>) -> Option<()> {
    let [offset, count] = arguments else {
        return None;
    };
    let offset = number(*offset)?;
    let count = number(*count)?;
    if !is_writing(&desk.handles) {
        return None;
    }
    desk.creates = false;
    desk.aborts = false;
    let data = Data::Pattern {
        seed: 0,
        length: count,
    };
    let written = write(&mut desk.handles, 1, 7, offset, &data);
    drop(data);
    match written {
        Ok(count) => say_with(printed, "wrote ", count),
        Err(errno) => say_errno(printed, errno),
    }
}

fn wait_for(desk: &mut Desk, waiter: Waiter, printed: &mut Vec<u8>) -> Option<()> {
    if !is_writing(&desk.handles) {
        return None;
    }
    desk.creates = false;
    desk.aborts = false;
    let was_under_way = wait(&mut desk.handles, 1, 7, waiter);
    say_whether(printed, was_under_way)
}

fn sync(desk: &mut Desk, arguments: &[&str], printed: &mut Vec<u8>) -> Option<()> {
    wait_for(desk, Waiter::Sync(line_number(only(arguments)?)?), printed)
}

fn close(desk: &mut Desk, arguments: &[&str], printed: &mut Vec<u8>) -> Option<()> {
    wait_for(desk, Waiter::Close(line_number(only(arguments)?)?), printed)
}

fn answer(desk: &mut Desk, printed: &mut Vec<u8>) -> Option<()> {
    if !is_writing(&desk.handles) {
        return None;
    }
    desk.creates = false;
    desk.aborts = false;
    answered(&mut desk.handles, 1, 7);
    say(printed, "ok")
}

fn hear_answer(desk: &mut Desk, answer: &Brief, printed: &mut Vec<u8>) -> Option<()> {
    let was_under_way = if desk.creates {
        desk.creates = false;
        desk.aborts = false;
        hear(&mut desk.handles, 1, 7, &Purpose::Create, answer)
    } else if desk.aborts {
        desk.aborts = false;
        hear(&mut desk.handles, 1, 7, &Purpose::Abort, answer)
    } else {
        return None;
    };
    say_whether(printed, was_under_way)
}

fn answer_of(words: &[&str]) -> Option<Brief> {
    match words {
        ["upload", id] => Some(Brief::Upload(number(*id)?)),
        ["no_memory"] => Some(Brief::NoMemory),
        ["stored"] => Some(Brief::Stored),
        ["fault"] => Some(Brief::Fault),
        _ => None,
    }
}

fn hear_words(desk: &mut Desk, words: &[&str], printed: &mut Vec<u8>) -> Option<()> {
    let answer = answer_of(words)?;
    let heard = hear_answer(desk, &answer, printed);
    drop(answer);
    heard
}

fn writer_in(handles: &Table) -> Option<&Writer<Uploader>> {
    match handles.get(1, 7)? {
        Handle::Writing(writer) => Some(writer),
        Handle::Reading { .. } => None,
    }
}

fn say_waiter(printed: &mut Vec<u8>, waiter: Waiter) -> Option<()> {
    match waiter {
        Waiter::Nobody => say(printed, "nobody"),
        Waiter::Sync(line) => say_with(printed, "sync ", u64::from(line)),
        Waiter::Close(line) => say_with(printed, "close ", u64::from(line)),
    }
}

// Tells how the writer stands.
fn tell(handles: &Table, verb: &str, printed: &mut Vec<u8>) -> Option<()> {
    let writer = writer_in(handles)?;
    match verb {
        "waiter" => say_waiter(printed, writer.waiter),
        "state" => say_state(printed, writer.upload.state()),
        "due" => say_due(printed, writer.upload.next_ask()),
        _ => None,
    }
}

/// Plays a call of the handle that writes.
pub fn play_writer(
    desk: &mut Desk,
    verb: &str,
    arguments: &[&str],
    printed: &mut Vec<u8>,
) -> Option<()> {
    match verb {
        "write" => give(desk, arguments, printed),
        "sync" => sync(desk, arguments, printed),
        "close" => close(desk, arguments, printed),
        "hear" => hear_words(desk, arguments, printed),
        "answered" if arguments.is_empty() => answer(desk, printed),
        _ if arguments.is_empty() => tell(&desk.handles, verb, printed),
        _ => None,
    }
}
