use crate::print::{say, say_bytes, say_due, say_errno, say_number, say_state, say_with};
use crate::words::{number, only, text};
use bytes::Bytes;
use mp_types::{Data, Errno, Octets};
use part_uploader::{UpFault, Uploader};
use std::alloc::Global;
use std::marker::Model;
use upload_rules::{UpAsk, UpState};

/// An upload, and what its caller knows of it: at least so many calls are out, so many of them store parts, and whether
/// the upload was asked for and has no id.
#[derive(Drop)]
pub struct Caller {
    uploader: Uploader,
    calls: u32,
    parts: u32,
    creating: bool,
}

impl Model for Caller {
    ghost use Rattle.std.specs.Prelude.{ℕ, ◌≡◌, ◌+◌, ◌≤◌, IsTrue};
    ghost use Rattle.upload_rules.specs.declared.upload.Created.TheVariants.{Asked};

    ghost Value = { ℕ };

    ghost view = { λ a. a.calls };

    ghost invariant = { λ a. (a.calls ≤ a.uploader.pending) × (a.uploader.stored + a.parts ≤ a.uploader.asked) × (IsTrue a.creating → a.uploader.created ≡ Asked) };
}

impl Caller {
    /// An upload of no bytes, in parts of so many bytes, at most 1,000.
    pub fn new(alloc: Global, part: u64) -> Option<Self> {
        if part == 0 || part > 1000 {
            return None;
        }
        Some(Caller {
            uploader: Uploader::new(alloc, part),
            calls: 0,
            parts: 0,
            creating: false,
        })
    }

    fn write(&mut self, offset: u64, data: &Data) -> Result<u64, UpFault> {
        self.uploader.write(offset, data, 0)
    }

    // So many bytes of a pattern whose places are those of the object.
    fn fill(&mut self, offset: u64, count: u64) -> Result<u64, UpFault> {
        let data = Data::Pattern {
            seed: 0,
            length: offset.saturating_add(count),
        };
        self.uploader.write(offset, &data, offset.min(data.len()))
    }

    fn due(&self) -> Option<UpAsk> {
        self.uploader.next_ask()
    }

    // The bytes of the part that is due.
    fn bytes(&mut self) -> Option<Bytes> {
        match self.uploader.next_ask() {
            Some(UpAsk::Part { .. }) => self.uploader.part_bytes().ok(),
            _ => None,
        }
    }

    // Asks for the part that is due, and gives its bytes.
    fn ask_part(&mut self) -> Option<Bytes> {
        match self.uploader.next_ask() {
            Some(UpAsk::Part { .. }) => {}
            _ => return None,
        }
        let bytes = self.uploader.part_bytes().ok()?;
        self.uploader.asked();
        self.calls = self.calls.saturating_add(1);
        self.parts = self.parts.saturating_add(1);
        Some(bytes)
    }

    // Asks for the call that is due, which carries no bytes.
    fn ask_plain(&mut self) -> Option<()> {
        let creates = match self.uploader.next_ask() {
            None | Some(UpAsk::Part { .. }) => return None,
            Some(ask) => ask == UpAsk::Create,
        };
        self.creating = creates;
        self.uploader.asked();
        self.calls = self.calls.saturating_add(1);
        Some(())
    }

    fn created(&mut self, upload: u64) -> Option<()> {
        if !self.creating || self.calls == 0 {
            return None;
        }
        self.uploader.created(upload);
        self.creating = false;
        self.calls -= 1;
        Some(())
    }

    fn part_done(&mut self) -> Option<()> {
        if self.parts == 0 || self.calls == 0 {
            return None;
        }
        self.uploader.part_done();
        self.parts -= 1;
        self.calls -= 1;
        Some(())
    }

    fn completed(&mut self) -> Option<()> {
        if self.uploader.state() != UpState::Finished || self.calls == 0 {
            return None;
        }
        self.uploader.completed();
        self.calls -= 1;
        Some(())
    }

    fn fault(&mut self) -> Option<()> {
        if self.calls == 0 {
            return None;
        }
        self.uploader.fault(Errno::Eio);
        self.calls -= 1;
        Some(())
    }

    fn dropped(&mut self) -> Option<()> {
        if self.calls == 0 {
            return None;
        }
        self.uploader.dropped();
        self.calls -= 1;
        Some(())
    }

    fn aborted(&mut self) -> Option<()> {
        if self.calls == 0 {
            return None;
        }
        self.uploader.aborted();
        self.creating = false;
        self.calls -= 1;
        Some(())
    }

    fn lack(&mut self) -> Option<()> {
        self.uploader.lack();
        Some(())
    }

    fn finish(&mut self) -> Option<()> {
        if self.uploader.state() != UpState::Open {
            return None;
        }
        self.uploader.finish();
        Some(())
    }

    fn close(&mut self) -> Option<()> {
        if self.uploader.state() == UpState::Done {
            return None;
        }
        self.uploader.closing();
        Some(())
    }
}

fn say_written(printed: &mut Vec<u8>, written: Result<u64, UpFault>) -> Option<()> {
    match written {
        Ok(count) => say_with(printed, "wrote ", count),
        Err(UpFault::Finished) => say(printed, "finished"),
        Err(UpFault::OutOfOrder) => say(printed, "out of order"),
        Err(UpFault::TooBig) => say(printed, "too big"),
        Err(UpFault::Memory) => say(printed, "no memory"),
        Err(UpFault::Failed(errno)) => {
            say(printed, "failed ")?;
            say_errno(printed, errno)
        }
    }
}

fn write(
    alloc: Global,
    caller: &mut Caller,
    arguments: &[&str],
    printed: &mut Vec<u8>,
) -> Option<()> {
    let [offset, word] = arguments else {
        return None;
    };
    let offset = number(*offset)?;
    let bytes = Vec::from_slice(alloc, text(*word).as_bytes()).ok()?;
    let data = Data::Literal(Octets::from_vec(bytes));
    let written = caller.write(offset, &data);
    drop(data);
    say_written(printed, written)
}

fn fill(caller: &mut Caller, arguments: &[&str], printed: &mut Vec<u8>) -> Option<()> {
    let [offset, count] = arguments else {
        return None;
    };
    let offset = number(*offset)?;
    let count = number(*count)?;
    say_written(printed, caller.fill(offset, count))
}

fn created(caller: &mut Caller, arguments: &[&str], printed: &mut Vec<u8>) -> Option<()> {
    caller.created(number(only(arguments)?)?)?;
    say(printed, "ok")
}

fn say_part(printed: &mut Vec<u8>, bytes: Option<Bytes>) -> Option<()> {
    let bytes = bytes?;
    let said = say_bytes(printed, bytes.as_slice());
    drop(bytes);
    said
}

// Asks for what is due, and tells it, with the bytes of a part.
fn ask(caller: &mut Caller, printed: &mut Vec<u8>) -> Option<()> {
    let due = caller.due();
    say_due(printed, due)?;
    match due {
        None => Some(()),
        Some(UpAsk::Part { .. }) => {
            say(printed, " ")?;
            say_part(printed, caller.ask_part())
        }
        Some(_) => caller.ask_plain(),
    }
}

// Whether the bytes are those of `fill`, from this place of the object on.
fn are_filled(bytes: &[u8], from: u64) -> bool {
    let mut place = from;
    for byte in bytes {
        if u64::from(*byte) != place % 251 {
            return false;
        }
        place = place.saturating_add(1);
    }
    true
}

// Asks for the part that is due, which has this number and begins at this place, and carries the bytes of `fill`.
// Gives its end.
fn ask_next(caller: &mut Caller, next: u32, begin: u64) -> Option<u64> {
    match caller.due() {
        Some(UpAsk::Part { number, from, to }) if number == next && from == begin => {
            let bytes = caller.ask_part()?;
            let is_so = are_filled(bytes.as_slice(), from)
                && from.checked_add(bytes.len() as u64) == Some(to);
            drop(bytes);
            if is_so { Some(to) } else { None }
        }
        _ => None,
    }
}

// Asks for all parts that are due, from the first one on.
fn ask_parts(caller: &mut Caller, printed: &mut Vec<u8>) -> Option<()> {
    let mut place = 0;
    for count in 0..20_000u32 {
        if caller.due().is_none() {
            return say_number(printed, u64::from(count));
        }
        place = ask_next(caller, count + 1, place)?;
    }
    None
}

// What has become of a call or of the writer.
fn change(caller: &mut Caller, verb: &str) -> Option<()> {
    match verb {
        "part_done" => caller.part_done(),
        "completed" => caller.completed(),
        "aborted" => caller.aborted(),
        "fault" => caller.fault(),
        "dropped" => caller.dropped(),
        "lack" => caller.lack(),
        "finish" => caller.finish(),
        "close" => caller.close(),
        _ => None,
    }
}

// Plays a call that has no arguments.
fn play_plain(caller: &mut Caller, verb: &str, printed: &mut Vec<u8>) -> Option<()> {
    match verb {
        "len" => say_number(printed, caller.uploader.len()),
        "state" => say_state(printed, caller.uploader.state()),
        "due" => say_due(printed, caller.due()),
        "bytes" => say_part(printed, caller.bytes()),
        "ask" => ask(caller, printed),
        "ask_parts" => ask_parts(caller, printed),
        _ => {
            change(caller, verb)?;
            say(printed, "ok")
        }
    }
}

/// Plays a call of the upload.
pub fn play_upload(
    alloc: Global,
    caller: &mut Caller,
    verb: &str,
    arguments: &[&str],
    printed: &mut Vec<u8>,
) -> Option<()> {
    match verb {
        "write" => write(alloc, caller, arguments, printed),
        "fill" => fill(caller, arguments, printed),
        "created" => created(caller, arguments, printed),
        _ if arguments.is_empty() => play_plain(caller, verb, printed),
        _ => None,
    }
}
