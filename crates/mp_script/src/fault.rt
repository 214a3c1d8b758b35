ghost use Rattle.std.specs.Prelude.{◌≡◌};
ghost use Rattle.mp_script.specs.declared.fault.Fault.TheVariants as fault;
ghost use Rattle.mp_script.specs.declared.fault.ScriptError.TheVariants as script_error;

use crate::cause::{ScriptCause, What};
use mount_model::Line;
use std::alloc::{AllocError, AllocFailed};

/// Why bytes were not read as a script.
#[derive(Clone, Copy, Debug, PartialEq, Eq)]
pub enum ScriptError {
    /// The first bad line, counted from 1, and the first thing that is wrong with it.
    Bad { line: u32, cause: ScriptCause },
    /// There is too much of this. Bytes and lines are counted before any line is looked at, reads and then data behind the last line.
    TooLong(What),
    /// No memory.
    Memory,
}

impl From<AllocFailed<Line>> for ScriptError {
    ghost from_gives = { λ _ error. error ≡ script_error.Memory };

    fn from(refused: AllocFailed<Line>) -> ScriptError {
        drop(refused);
        ScriptError::Memory
    }
}

/// Why a line was not read.
#[derive(Clone, Copy)]
pub enum Fault {
    Cause(ScriptCause),
    Memory,
}

impl From<ScriptCause> for Fault {
    ghost from_gives = { λ cause f. f ≡ fault.Cause cause };

    fn from(cause: ScriptCause) -> Fault {
        Fault::Cause(cause)
    }
}

impl From<AllocError> for Fault {
    ghost from_gives = { λ _ f. f ≡ fault.Memory };

    fn from(_error: AllocError) -> Fault {
        Fault::Memory
    }
}

impl From<AllocFailed<u8>> for Fault {
    ghost from_gives = { λ _ f. f ≡ fault.Memory };

    fn from(_refused: AllocFailed<u8>) -> Fault {
        Fault::Memory
    }
}
