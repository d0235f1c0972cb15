//! Why texts are refused.

ghost use Rattle.std.specs.Prelude.{◌≡◌};
ghost use Rattle.asmtext.specs.declared.cause.AsmFault.TheVariants as faults;

use prunum::Memory;
use std::fmt;
use thiserror::Error;

/// Why a line of assembly text is bad. On one line the first of these counts.
#[derive(Clone, Copy, Debug, PartialEq, Eq)]
pub enum AsmCause {
    /// It has no form of a line, or no mnemonic.
    Form,
    /// A number or register is out of its range, a word has a second note of a kind, or the body of a LOOP has no word or more
    /// than 255.
    Range,
    /// A label that is defined twice, at its second place; one that is used and not defined; or a LOOP whose end isn't behind it.
    Label,
    /// A note with no word behind it, or on a word on which it may not stand.
    Note,
    /// There are more words than a core's code may have. No reader gives it.
    Size,
}

impl fmt::Display for AsmCause {
    fn fmt<W: fmt::Write>(&self, f: &mut fmt::Formatter<W>) -> fmt::Result {
        match self {
            AsmCause::Form => f.write_str("Form"),
            AsmCause::Range => f.write_str("Range"),
            AsmCause::Label => f.write_str("Label"),
            AsmCause::Note => f.write_str("Note"),
            AsmCause::Size => f.write_str("Size"),
        }
    }
}

/// Why a text is no program: its first bad line, from 1, with its cause.
#[derive(Debug, Drop, Error)]
pub enum AsmFault {
    #[error("{line} {cause}")]
    Line { line: u32, cause: AsmCause },
    #[error("memory")]
    Memory,
}

impl From<Memory> for AsmFault {
    ghost from_gives = { λ _ e. e ≡ faults.Memory };

    fn from(_: Memory) -> AsmFault {
        AsmFault::Memory
    }
}
