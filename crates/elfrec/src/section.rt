ghost use Rattle.std.specs.Prelude.{◌≡◌};
ghost use Rattle.elfrec.specs.Section.{section_format, SectionFits, kind_of};

use crate::flags::SectionFlags;
use crate::record::Record;
use crate::rela::Rela;
use crate::symbol::Symbol;
use bitflags::Flags;
use prunum::{Memory, append_words, u32_at};

/// A section header.
#[derive(Clone, Copy, Debug, PartialEq, Eq)]
pub struct Section {
    /// Where its name begins in the section of section names (`sh_name`).
    pub name: u32,
    /// What it holds: one of the section types below, or another (`sh_type`).
    pub section_type: u32,
    /// `sh_flags`.
    pub flags: SectionFlags,
    /// Where it stands in memory (`sh_addr`).
    pub address: u32,
    /// Where it stands in the file (`sh_offset`).
    pub offset: u32,
    /// Its number of bytes (`sh_size`).
    pub size: u32,
    /// The number of a section that belongs to it (`sh_link`).
    pub link: u32,
    /// What more its type tells (`sh_info`).
    pub info: u32,
    /// What its address is a multiple of (`sh_addralign`).
    pub alignment: u32,
    /// The size of each record that it holds (`sh_entsize`).
    pub entry_size: u32,
}

/// What a section holds in the file, by its type.
#[derive(Clone, Copy, Debug, PartialEq, Eq)]
pub enum SectionKind {
    /// No bytes: [`Section::NULL`] and [`Section::NO_BITS`].
    Empty,
    /// Symbols: [`Section::SYMBOL_TABLE`].
    Symbols,
    /// Relocations: [`Section::RELA`].
    Relas,
    /// Other bytes: every other type.
    Bytes,
}

impl Section {
    /// The section type of a header with no section (`SHT_NULL`).
    pub const NULL: u32 = 0;

    /// The section type of what the program itself defines, as code and data (`SHT_PROGBITS`).
    pub const PROGRAM_BITS: u32 = 1;

    /// The section type of a symbol table (`SHT_SYMTAB`).
    pub const SYMBOL_TABLE: u32 = 2;

    /// The section type of a string table (`SHT_STRTAB`).
    pub const STRING_TABLE: u32 = 3;

    /// The section type of relocations with addends (`SHT_RELA`).
    pub const RELA: u32 = 4;

    /// The section type of what has no bytes in the file (`SHT_NOBITS`).
    pub const NO_BITS: u32 = 8;

    /// What it holds, by its type.
    pub fn kind(&self) -> SectionKind
        ensures { result ≡ kind_of self.now.section_type }
    {
        match self.section_type {
            Self::NULL | Self::NO_BITS => SectionKind::Empty,
            Self::SYMBOL_TABLE => SectionKind::Symbols,
            Self::RELA => SectionKind::Relas,
            _ => SectionKind::Bytes,
        }
    }
}

impl Record for Section {
    ghost format = { section_format };

    ghost Fits = { SectionFits };

    fn size() -> u32 {
        40
    }

    fn from_bytes(bytes: &[u8]) -> Self {
        Section {
            name: u32_at(bytes, 0),
            section_type: u32_at(bytes, 4),
            flags: SectionFlags::from_bits_retain(u32_at(bytes, 8)),
            address: u32_at(bytes, 12),
            offset: u32_at(bytes, 16),
            size: u32_at(bytes, 20),
            link: u32_at(bytes, 24),
            info: u32_at(bytes, 28),
            alignment: u32_at(bytes, 32),
            entry_size: u32_at(bytes, 36),
        }
    }

    fn has_right_sizes(self) -> bool {
        match self.kind() {
            SectionKind::Symbols => {
                self.entry_size == Symbol::size() && self.size % Symbol::size() == 0
            }
            SectionKind::Relas => {
                self.entry_size == Rela::size() && self.size % Rela::size() == 0
            }
            SectionKind::Empty | SectionKind::Bytes => true,
        }
    }

    fn append_to(self, out: &mut Vec<u8>) -> Result<(), Memory> {
        append_words(
            out,
            &[
                self.name,
                self.section_type,
                self.flags.bits(),
                self.address,
                self.offset,
                self.size,
                self.link,
                self.info,
                self.alignment,
                self.entry_size,
            ],
        )?;
        Ok(())
    }
}
