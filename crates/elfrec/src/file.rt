use crate::header::Header;
use crate::rela::Rela;
use crate::section::Section;
use crate::segment::Segment;
use crate::sequence::Sequence;
use crate::symbol::Symbol;

/// What a section holds in the file.
#[derive(Debug, Drop)]
pub enum Contents {
    /// No bytes.
    Empty,
    /// Symbols.
    Symbols(Sequence<Symbol>),
    /// Relocations.
    Relas(Sequence<Rela>),
    /// Other bytes.
    Bytes(Sequence<u8>),
}

/// An ELF file: its records, and what its sections hold.
#[derive(Debug, Drop)]
pub struct ElfFile {
    pub header: Header,
    /// The program headers, in the order of the file.
    pub segments: Sequence<Segment>,
    /// The section headers, in the order of the file.
    pub sections: Sequence<Section>,
    /// What each section holds, one for one with `sections`.
    pub contents: Sequence<Contents>,
}

/// Bytes that stand somewhere in a file: its header, its program headers, its section headers, or what a section holds.
#[derive(Debug, Drop)]
pub struct Part {
    pub offset: u32,
    pub bytes: Sequence<u8>,
}
