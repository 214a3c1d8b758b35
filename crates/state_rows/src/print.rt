use itoa::Buffer;
use mp_types::Errno;
use upload_rules::{UpAsk, UpState};

/// Prints a text.
pub fn say(printed: &mut Vec<u8>, text: &str) -> Option<()> {
    printed.extend_from_slice(text.as_bytes()).ok()
}

/// Prints a number.
pub fn say_number(printed: &mut Vec<u8>, number: u64) -> Option<()> {
    printed
        .extend_from_slice(Buffer::new().format(number).as_bytes())
        .ok()
}

/// Prints a text and a number behind it.
pub fn say_with(printed: &mut Vec<u8>, text: &str, number: u64) -> Option<()> {
    say(printed, text)?;
    say_number(printed, number)
}

/// Prints a number, if there is one.
pub fn say_maybe(printed: &mut Vec<u8>, number: Option<u64>) -> Option<()> {
    match number {
        Some(number) => say_number(printed, number),
        None => say(printed, "none"),
    }
}

pub fn say_whether(printed: &mut Vec<u8>, is_so: bool) -> Option<()> {
    say(printed, if is_so { "yes" } else { "no" })
}

/// Prints bytes, which may be none.
pub fn say_bytes(printed: &mut Vec<u8>, bytes: &[u8]) -> Option<()> {
    printed
        .extend_from_slice(if bytes.is_empty() {
            b"-".as_slice()
        } else {
            bytes
        })
        .ok()
}

/// Prints an error that a writer may have.
pub fn say_errno(printed: &mut Vec<u8>, errno: Errno) -> Option<()> {
    match errno {
        Errno::Eio => say(printed, "EIO"),
        Errno::Enomem => say(printed, "ENOMEM"),
        Errno::Einval => say(printed, "EINVAL"),
        Errno::Efbig => say(printed, "EFBIG"),
        other => say_with(printed, "errno ", u64::from(other.number())),
    }
}

/// Prints how far a writer has come.
pub fn say_state(printed: &mut Vec<u8>, state: UpState) -> Option<()> {
    match state {
        UpState::Open => say(printed, "open"),
        UpState::Finished => say(printed, "finished"),
        UpState::Done => say(printed, "done"),
        UpState::Failed(errno) => {
            say(printed, "failed ")?;
            say_errno(printed, errno)
        }
    }
}

fn say_part(printed: &mut Vec<u8>, number: u32, from: u64, to: u64) -> Option<()> {
    say_with(printed, "part ", u64::from(number))?;
    say_with(printed, " ", from)?;
    say_with(printed, " ", to)
}

/// Prints what is due.
pub fn say_due(printed: &mut Vec<u8>, due: Option<UpAsk>) -> Option<()> {
    match due {
        None => say(printed, "none"),
        Some(UpAsk::Create) => say(printed, "create"),
        Some(UpAsk::Part { number, from, to }) => say_part(printed, number, from, to),
        Some(UpAsk::Complete { parts }) => say_with(printed, "complete ", u64::from(parts)),
        Some(UpAsk::Abort) => say(printed, "abort"),
    }
}
