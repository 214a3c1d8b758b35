ghost use Rattle.std.specs.Prelude.{◌≡◌};
ghost use Rattle.mount_one.specs.Messages.{cause_words, what_words};

use crate::status::Status;
use mp_script::{ScriptCause, What};
use std::io;

fn cause_text(cause: ScriptCause) -> &'static str
    ensures { result.now ≡ cause_words cause }
{
    match cause {
        ScriptCause::Actor => "actor",
        ScriptCause::Verb => "verb",
        ScriptCause::Words => "words",
        ScriptCause::Handle => "handle",
        ScriptCause::Number => "number",
        ScriptCause::Escape => "escape",
        ScriptCause::Utf8 => "utf8",
        ScriptCause::Key => "key",
        ScriptCause::Data => "data",
    }
}

fn what_text(what: What) -> &'static str
    ensures { result.now ≡ what_words what }
{
    match what {
        What::Bytes => "bytes",
        What::Lines => "lines",
        What::Reads => "reads",
        What::Data => "data",
    }
}

/// Writes the status's line to standard error. A run that is done has none.
pub fn tell<R: Eprint>(rt: &R, status: Status) -> io::Result<()> {
    match status {
        Status::Done => Ok(()),
        Status::BadScript { line, cause } => {
            let cause = cause_text(cause);
            eprintln!(rt; "mount: line {line}: {cause}")
        }
        Status::TooLong(what) => {
            let what = what_text(what);
            eprintln!(rt; "mount: too long: {what}")
        }
        Status::Usage => eprintln!(rt; "mount: usage"),
        Status::SourceFault => eprintln!(rt; "mount: read failed"),
        Status::SinkFault => eprintln!(rt; "mount: write failed"),
        Status::NoMemory => eprintln!(rt; "mount: no memory"),
    }
}
