//! How long the parts of an executable are, where they stand in it, and what room is left for them.

ghost use Rattle.std.specs.Prelude.{◌≡◌, ◌<◌, ◌^◌};
ghost use Rattle.pruelf.specs.Layout as layout;

use crate::span::Span;

/// The lengths in bytes of an executable's parts, and the places that aren't told by them.
#[derive(Clone, Copy, Debug)]
pub struct Plan {
    /// Where the section headers stand in the file.
    pub sections_at: u32,
    /// `.text`.
    pub code: u32,
    /// Where the data goes in the core's own RAM.
    pub data_at: u32,
    /// `.data`.
    pub init: u32,
    /// `.data` and `.bss`.
    pub memory: u32,
    /// `.pru.notes`.
    pub notes: u32,
    /// `.resource_table`.
    pub table: u32,
    /// `.symtab`.
    pub symbols: u32,
    /// `.strtab`.
    pub names: u32,
}

/// How many bytes of 0 stand behind a part of this length.
pub fn padding(length: u32) -> u32
    ensures value { result ≡ layout.padding length }
    ensures small { result < 4 }
{
    (4 - length % 4) % 4
}

impl Plan {
    /// Where the data stands in the file.
    pub fn data_offset(&self) -> u64
        ensures value { result ≡ layout.data_offset self.now }
        ensures bound { result < 2 ^ 40 }
    {
        116 + u64::from(self.code)
    }

    /// Where the notes stand in the file.
    pub fn notes_offset(&self) -> u64
        ensures value { result ≡ layout.notes_offset self.now }
        ensures bound { result < 2 ^ 40 }
    {
        116 + u64::from(self.code) + u64::from(self.init) + u64::from(padding(self.init))
    }

    /// Where the resource table stands in the file.
    pub fn table_offset(&self) -> u64
        ensures value { result ≡ layout.table_offset self.now }
        ensures bound { result < 2 ^ 40 }
    {
        116 + u64::from(self.code)
            + u64::from(self.init)
            + u64::from(padding(self.init))
            + u64::from(self.notes)
    }

    /// Where the symbols stand in the file.
    pub fn symbols_offset(&self) -> u64
        ensures value { result ≡ layout.symbols_offset self.now }
        ensures bound { result < 2 ^ 40 }
    {
        116 + u64::from(self.code)
            + u64::from(self.init)
            + u64::from(padding(self.init))
            + u64::from(self.notes)
            + u64::from(self.table)
    }

    /// Where the symbols' names stand in the file.
    pub fn names_offset(&self) -> u64
        ensures value { result ≡ layout.names_offset self.now }
        ensures bound { result < 2 ^ 40 }
    {
        116 + u64::from(self.code)
            + u64::from(self.init)
            + u64::from(padding(self.init))
            + u64::from(self.notes)
            + u64::from(self.table)
            + u64::from(self.symbols)
    }

    /// Where the sections' names stand in the file.
    pub fn section_names_offset(&self) -> u64
        ensures value { result ≡ layout.section_names_offset self.now }
        ensures bound { result < 2 ^ 40 }
    {
        116 + u64::from(self.code)
            + u64::from(self.init)
            + u64::from(padding(self.init))
            + u64::from(self.notes)
            + u64::from(self.table)
            + u64::from(self.symbols)
            + u64::from(self.names)
            + u64::from(padding(self.names))
    }
}
