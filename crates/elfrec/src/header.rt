ghost use Rattle.std.specs.Prelude.{◌≡◌, ◌≤◌, length, take};
ghost use Rattle.elfrec.specs.Header.{header_format, HeaderFits};

use crate::record::Record;
use crate::section::Section;
use crate::segment::Segment;
use prunum::{Memory, append_halves, append_words, u16_at, u32_at};

/// The ELF header, with which a file begins.
#[derive(Clone, Copy, Debug, PartialEq, Eq)]
pub struct Header {
    /// The magic number, the class, the encoding and the version, and bytes of 0 (`e_ident`).
    pub identification: [u8; 16],
    /// `e_type`.
    pub file_type: u16,
    /// `e_machine`.
    pub machine: u16,
    /// `e_version`.
    pub version: u32,
    /// The address at which execution begins (`e_entry`).
    pub entry: u32,
    /// Where the program headers stand in the file (`e_phoff`).
    pub program_header_offset: u32,
    /// Where the section headers stand in the file (`e_shoff`).
    pub section_header_offset: u32,
    /// `e_flags`.
    pub flags: u32,
    /// The size of this header (`e_ehsize`).
    pub header_size: u16,
    /// The size of a program header (`e_phentsize`).
    pub program_header_size: u16,
    /// The number of program headers (`e_phnum`).
    pub program_header_count: u16,
    /// The size of a section header (`e_shentsize`).
    pub section_header_size: u16,
    /// The number of section headers (`e_shnum`).
    pub section_header_count: u16,
    /// The number of the section that holds the sections' names (`e_shstrndx`).
    pub section_name_table: u16,
}

fn identification_of(bytes: &[u8]) -> [u8; 16]
    requires { 16 ≤ length bytes.now }
    ensures { result ≡ take 16 bytes.now }
{
    let mut identification = [0; 16];
    identification.copy_from_slice(&bytes[..16]);
    identification
}

impl Record for Header {
    ghost format = { header_format };

    ghost Fits = { HeaderFits };

    fn size() -> u32 {
        52
    }

    fn from_bytes(bytes: &[u8]) -> Self {
        Header {
            identification: identification_of(bytes),
            file_type: u16_at(bytes, 16),
            machine: u16_at(bytes, 18),
            version: u32_at(bytes, 20),
            entry: u32_at(bytes, 24),
            program_header_offset: u32_at(bytes, 28),
            section_header_offset: u32_at(bytes, 32),
            flags: u32_at(bytes, 36),
            header_size: u16_at(bytes, 40),
            program_header_size: u16_at(bytes, 42),
            program_header_count: u16_at(bytes, 44),
            section_header_size: u16_at(bytes, 46),
            section_header_count: u16_at(bytes, 48),
            section_name_table: u16_at(bytes, 50),
        }
    }

    fn has_right_sizes(self) -> bool {
        u32::from(self.program_header_size) == Segment::size()
            && u32::from(self.section_header_size) == Section::size()
    }

    fn append_to(self, out: &mut Vec<u8>) -> Result<(), Memory> {
        out.extend_from_slice(&self.identification)?;
        append_halves(out, &[self.file_type, self.machine])?;
        append_words(
            out,
            &[
                self.version,
                self.entry,
                self.program_header_offset,
                self.section_header_offset,
                self.flags,
            ],
        )?;
        append_halves(
            out,
            &[
                self.header_size,
                self.program_header_size,
                self.program_header_count,
                self.section_header_size,
                self.section_header_count,
                self.section_name_table,
            ],
        )?;
        Ok(())
    }
}
