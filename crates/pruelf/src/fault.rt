ghost use Rattle.std.specs.Prelude.{◌≡◌};
ghost use Rattle.pruelf.specs.declared.fault.LoadFault.TheVariants.{Memory};

use std::alloc::{AllocError, AllocFailed};
use thiserror::Error;

/// Which part of a file is at fault.
#[derive(Clone, Copy, Debug, PartialEq, Eq)]
pub enum LoadCause {
    /// The file ends within a field: the offset is its length.
    Truncated,
    /// A field of the ELF header.
    Header,
    /// A field of a program header.
    Segment,
    /// A field of a section header, or a byte of the sections' names.
    Section,
    /// A word of the code that is no instruction.
    Word,
    /// A field of a note.
    Note,
    /// A field of the resource table.
    Table,
    /// A field of a symbol or a relocation, or a byte of the symbols' names.
    Symbol,
    /// A byte behind a part that isn't 0.
    Pad,
    /// A byte behind the last section header.
    Trailing,
}

/// Why a file was not read.
#[derive(Clone, Copy, Debug, PartialEq, Eq, Error)]
pub enum LoadFault {
    /// The first fault, with the offset of its field's first byte. The header is judged first, then the program headers,
    /// the section headers, the other parts in the order of the file, and what stands behind the section headers.
    #[error("{cause:?} at offset {offset}")]
    At { offset: u32, cause: LoadCause },
    #[error("memory")]
    Memory,
}

impl From<AllocError> for LoadFault {
    ghost from_gives = { λ _ e. e ≡ Memory };

    fn from(_: AllocError) -> Self {
        LoadFault::Memory
    }
}

impl<T: Drop> From<AllocFailed<T>> for LoadFault {
    ghost from_gives = { λ _ e. e ≡ Memory };

    fn from(_: AllocFailed<T>) -> Self {
        LoadFault::Memory
    }
}
