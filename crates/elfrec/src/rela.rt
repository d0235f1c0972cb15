ghost use Rattle.std.specs.Prelude.{◌≡◌};
ghost use Rattle.elfrec.specs.Rela.{rela_format, RelaFits};

use crate::record::Record;
use prunum::{Memory, append_words, u32_at};

/// A relocation with an addend.
#[derive(Clone, Copy, Debug, PartialEq, Eq)]
pub struct Rela {
    /// The place that is relocated (`r_offset`).
    pub offset: u32,
    /// The place of the symbol in its table, times 256, and the kind of relocation (`r_info`).
    pub info: u32,
    /// What is added to the symbol's value (`r_addend`).
    pub addend: i32,
}

impl Record for Rela {
    ghost format = { rela_format };

    ghost Fits = { RelaFits };

    fn size() -> u32 {
        12
    }

    fn from_bytes(bytes: &[u8]) -> Self {
        Rela {
            offset: u32_at(bytes, 0),
            info: u32_at(bytes, 4),
            addend: u32_at(bytes, 8).cast_signed(),
        }
    }

    fn has_right_sizes(self) -> bool {
        true
    }

    fn append_to(self, out: &mut Vec<u8>) -> Result<(), Memory> {
        append_words(out, &[self.offset, self.info, self.addend.cast_unsigned()])?;
        Ok(())
    }
}
