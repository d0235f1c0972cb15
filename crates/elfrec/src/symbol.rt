ghost use Rattle.std.specs.Prelude.{◌≡◌};
ghost use Rattle.elfrec.specs.Symbol.{symbol_format, SymbolFits};

use crate::record::Record;
use prunum::{Memory, append_halves, append_words, u16_at, u32_at};

/// An entry of a symbol table.
#[derive(Clone, Copy, Debug, PartialEq, Eq)]
pub struct Symbol {
    /// Where its name begins in the string table (`st_name`).
    pub name: u32,
    /// `st_value`.
    pub value: u32,
    /// Its number of bytes in memory (`st_size`).
    pub size: u32,
    /// Its binding, times 16, and its type (`st_info`).
    pub info: u8,
    /// `st_other`.
    pub other: u8,
    /// The number of the section that it is defined in (`st_shndx`).
    pub section: u16,
}

impl Record for Symbol {
    ghost format = { symbol_format };

    ghost Fits = { SymbolFits };

    fn size() -> u32 {
        16
    }

    fn from_bytes(bytes: &[u8]) -> Self {
        Symbol {
            name: u32_at(bytes, 0),
            value: u32_at(bytes, 4),
            size: u32_at(bytes, 8),
            info: bytes[12],
            other: bytes[13],
            section: u16_at(bytes, 14),
        }
    }

    fn has_right_sizes(self) -> bool {
        true
    }

    fn append_to(self, out: &mut Vec<u8>) -> Result<(), Memory> {
        append_words(out, &[self.name, self.value, self.size])?;
        out.extend_from_slice(&[self.info, self.other])?;
        append_halves(out, &[self.section])?;
        Ok(())
    }
}
