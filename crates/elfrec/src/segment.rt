ghost use Rattle.std.specs.Prelude.{◌≡◌};
ghost use Rattle.elfrec.specs.Segment.{segment_format, SegmentFits};

use crate::record::Record;
use prunum::{Memory, append_words, u32_at};

/// A program header.
#[derive(Clone, Copy, Debug, PartialEq, Eq)]
pub struct Segment {
    /// `p_type`.
    pub segment_type: u32,
    /// Where it stands in the file (`p_offset`).
    pub offset: u32,
    /// Where it stands in memory (`p_vaddr`).
    pub virtual_address: u32,
    /// Where it stands in physical memory (`p_paddr`).
    pub physical_address: u32,
    /// Its number of bytes in the file (`p_filesz`).
    pub file_size: u32,
    /// Its number of bytes in memory (`p_memsz`).
    pub memory_size: u32,
    /// Whether it can be executed, written and read: 1, 2 and 4 (`p_flags`).
    pub flags: u32,
    /// What its addresses and its offset agree modulo (`p_align`).
    pub alignment: u32,
}

impl Record for Segment {
    ghost format = { segment_format };

    ghost Fits = { SegmentFits };

    fn size() -> u32 {
        32
    }

    fn from_bytes(bytes: &[u8]) -> Self {
        Segment {
            segment_type: u32_at(bytes, 0),
            offset: u32_at(bytes, 4),
            virtual_address: u32_at(bytes, 8),
            physical_address: u32_at(bytes, 12),
            file_size: u32_at(bytes, 16),
            memory_size: u32_at(bytes, 20),
            flags: u32_at(bytes, 24),
            alignment: u32_at(bytes, 28),
        }
    }

    fn has_right_sizes(self) -> bool {
        true
    }

    fn append_to(self, out: &mut Vec<u8>) -> Result<(), Memory> {
        append_words(
            out,
            &[
                self.segment_type,
                self.offset,
                self.virtual_address,
                self.physical_address,
                self.file_size,
                self.memory_size,
                self.flags,
                self.alignment,
            ],
        )?;
        Ok(())
    }
}
