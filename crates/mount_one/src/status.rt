ghost use Rattle.std.specs.Prelude.{◌≡◌};
ghost use Rattle.mount_one.specs.Statuses.{code_of};

use mp_script::{ScriptCause, What};

/// How a run ended.
#[derive(Clone, Copy, Debug, PartialEq, Eq)]
pub enum Status {
    /// The script was read to its end, each line has its reply, and the whole record is written.
    Done,
    /// The first line that isn't a request, and why.
    BadScript { line: u32, cause: ScriptCause },
    /// There is too much of something in the script.
    TooLong(What),
    /// The words aren't the one word `run`.
    Usage,
    /// The source failed.
    SourceFault,
    /// The sink failed. What is written is a front of the record.
    SinkFault,
    /// There was no memory. What is written is a front of the record, or nothing.
    NoMemory,
}

impl Status {
    /// The exit status of the program.
    pub fn code(self) -> u8
        ensures { result ≡ code_of self }
    {
        match self {
            Status::Done => 0,
            Status::BadScript { .. } => 1,
            Status::TooLong(_) => 1,
            Status::Usage => 2,
            Status::SourceFault => 3,
            Status::SinkFault => 4,
            Status::NoMemory => 5,
        }
    }
}
