ghost use Rattle.std.specs.Prelude.{◌≡◌};
ghost use Rattle.elfrec.specs.declared.fault.ElfFault.TheVariants.{Memory};

use std::alloc::{AllocError, AllocFailed};
use thiserror::Error;

/// What is wrong with a record, or with a section's bytes.
#[derive(Clone, Copy, Debug, PartialEq, Eq)]
pub enum ElfCause {
    /// They run out of the file.
    Short,
    /// The header or the section header gives an entry size other than this format's, or a length that isn't a
    /// multiple of it.
    Size,
}

/// Why a file was not read.
#[derive(Clone, Copy, Debug, PartialEq, Eq, Error)]
pub enum ElfFault {
    /// The first fault, in the order header, program headers, section headers, sections by number. The offset is that of
    /// the record or of the section's bytes.
    #[error("{cause:?} at offset {offset}")]
    At { offset: u32, cause: ElfCause },
    #[error("memory")]
    Memory,
}

impl From<AllocError> for ElfFault {
    ghost from_gives = { λ _ e. e ≡ Memory };

    fn from(_: AllocError) -> Self {
        ElfFault::Memory
    }
}

impl<T: Drop> From<AllocFailed<T>> for ElfFault {
    ghost from_gives = { λ _ e. e ≡ Memory };

    fn from(_: AllocFailed<T>) -> Self {
        ElfFault::Memory
    }
}
