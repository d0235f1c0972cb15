ghost use Rattle.std.specs.Prelude.{◌≡◌};
ghost use Rattle.modefiles.specs.declared.fault.InputFault.TheVariants.{NoMemory};

use crate::name::Name;
use prunum::Memory;
use std::alloc::AllocError;
use thiserror::Error;

/// Why files were not read.
#[derive(Debug, Drop, Error)]
pub enum InputFault {
    /// The files failed at the read of this name.
    #[error("read {0}")]
    Failed(Name),
    /// The file has more than its most bytes.
    #[error("long {name} {max}")]
    TooLong { name: Name, max: u32 },
    #[error("memory")]
    NoMemory,
}

impl From<Memory> for InputFault {
    ghost from_gives = { λ _ f. f ≡ NoMemory };

    fn from(_: Memory) -> Self {
        InputFault::NoMemory
    }
}

impl From<AllocError> for InputFault {
    ghost from_gives = { λ _ f. f ≡ NoMemory };

    fn from(_: AllocError) -> Self {
        InputFault::NoMemory
    }
}

/// Why files, or lines for the user, were not written.
#[derive(Debug, Drop, Error)]
pub enum OutputFault {
    /// The files failed at the write of this name, or the sink, whose name is `-`.
    #[error("write {0}")]
    Failed(Name),
    #[error("memory")]
    NoMemory,
}
