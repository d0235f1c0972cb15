ghost use Rattle.std.specs.Prelude.{◌≡◌};
ghost use Rattle.prucc.specs.declared.refusal.Refusal.TheVariants.{NoMemory};

use csyn::{Cause, Span};
use hostscript::ScriptCause;
use modefiles::Name;
use pruelf::LoadCause;
use prunum::Memory;
use std::alloc::AllocError;

/// Why nothing is made of the files that were read.
#[derive(Debug, Drop)]
pub enum Refusal {
    /// The first rule that the source of this core breaks, and where.
    Source {
        core: u8,
        span: Span,
        cause: Cause,
    },
    /// The first bad line of the script, from 1.
    Script {
        line: u32,
        cause: ScriptCause,
    },
    /// The first fault of the executable, with the offset of the field's first byte.
    Elf {
        name: Name,
        offset: u32,
        cause: LoadCause,
    },
    /// What stands at this place is read by a later stage of the program.
    NotBuilt {
        name: Name,
        span: Span,
    },
    NoMemory,
}

impl From<Memory> for Refusal {
    ghost from_gives = { λ _ r. r ≡ NoMemory };

    fn from(_: Memory) -> Self {
        Refusal::NoMemory
    }
}

impl From<AllocError> for Refusal {
    ghost from_gives = { λ _ r. r ≡ NoMemory };

    fn from(_: AllocError) -> Self {
        Refusal::NoMemory
    }
}
