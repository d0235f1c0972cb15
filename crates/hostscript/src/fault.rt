ghost use Rattle.std.specs.Prelude.{◌≡◌};
ghost use Rattle.hostscript.specs.declared.fault.LineFault.TheVariants as lines;
ghost use Rattle.hostscript.specs.Faults.{at_line};

use crate::cause::ScriptCause;
use std::alloc::{AllocError, AllocFailed};
use thiserror::Error;

/// Why a text is no script.
#[derive(Clone, Copy, Debug, PartialEq, Eq, Error)]
pub enum ScriptFault {
    /// The first bad line, from 1.
    #[error("line {line} of the script: {cause:?}")]
    Line { line: u32, cause: ScriptCause },
    #[error("memory")]
    Memory,
}

/// The same of one line.
#[derive(Clone, Copy, Debug, PartialEq, Eq)]
pub enum LineFault {
    Cause(ScriptCause),
    Memory,
}

impl LineFault {
    /// The fault of the line with this number.
    pub fn at(self, line: u32) -> ScriptFault
        ensures { result ≡ at_line line self }
    {
        match self {
            LineFault::Cause(cause) => ScriptFault::Line { line, cause },
            LineFault::Memory => ScriptFault::Memory,
        }
    }
}

impl From<ScriptCause> for LineFault {
    ghost from_gives = { λ cause e. e ≡ lines.Cause cause };

    fn from(cause: ScriptCause) -> LineFault {
        LineFault::Cause(cause)
    }
}

impl From<AllocError> for LineFault {
    ghost from_gives = { λ _ e. e ≡ lines.Memory };

    fn from(_: AllocError) -> LineFault {
        LineFault::Memory
    }
}

impl<T: Drop> From<AllocFailed<T>> for LineFault {
    ghost from_gives = { λ _ e. e ≡ lines.Memory };

    fn from(_: AllocFailed<T>) -> LineFault {
        LineFault::Memory
    }
}
