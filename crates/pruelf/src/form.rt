ghost use Rattle.std.specs.Prelude.{◌≡◌};
ghost use Rattle.pruelf.specs.Layout as layout;

use crate::plan::Plan;

/// A section header but for its size.
#[derive(Clone, Copy, Debug)]
pub struct Form {
    /// Where its name begins in the section of section names.
    pub name: u64,
    /// The section type.
    pub kind: u64,
    pub flags: u64,
    /// Where it stands in memory.
    pub address: u64,
    /// Where it stands in the file.
    pub offset: u64,
    pub link: u64,
    pub info: u64,
    pub alignment: u64,
    pub entry_size: u64,
}

const PROGRAM_BITS: u64 = 1;

const SYMBOL_TABLE: u64 = 2;

const STRING_TABLE: u64 = 3;

const NO_BITS: u64 = 8;

const WRITE: u64 = 1;

const LOADED: u64 = 2;

const EXECUTED: u64 = 4;

impl Form {
    /// The fields before the size.
    pub fn fields_before(&self) -> [u64; 5]
        ensures { result ≡ layout.fields_before self.now }
    {
        [self.name, self.kind, self.flags, self.address, self.offset]
    }

    /// The fields behind the size.
    pub fn fields_behind(&self) -> [u64; 4]
        ensures { result ≡ layout.fields_behind self.now }
    {
        [self.link, self.info, self.alignment, self.entry_size]
    }
}

fn part(name: u64, kind: u64, flags: u64, address: u64, offset: u64) -> Form
    ensures { result ≡ layout.part name kind flags address offset }
{
    Form {
        name,
        kind,
        flags,
        address,
        offset,
        link: 0,
        info: 0,
        alignment: 4,
        entry_size: 0,
    }
}

fn strings(name: u64, offset: u64) -> Form
    ensures { result ≡ record {
      name = name;
      kind = 3;
      flags = 0;
      address = 0;
      offset = offset;
      link = 0;
      info = 0;
      alignment = 1;
      entry_size = 0;
    } }
{
    Form {
        alignment: 1,
        ..part(name, STRING_TABLE, 0, 0, offset)
    }
}

impl Plan {
    /// The header of `.text`.
    pub fn code_form() -> Form
        ensures { result ≡ layout.code_form }
    {
        part(1, PROGRAM_BITS, LOADED + EXECUTED, 0, 116)
    }

    /// That of `.data`.
    pub fn data_form(&self) -> Form
        ensures { result ≡ layout.data_form self.now }
    {
        let address = u64::from(self.data_at);
        part(7, PROGRAM_BITS, LOADED + WRITE, address, self.data_offset())
    }

    /// That of `.bss`.
    pub fn zero_form(&self) -> Form
        ensures { result ≡ layout.zero_form self.now }
    {
        let init = u64::from(self.init);
        let address = u64::from(self.data_at) + init;
        let offset = 116 + u64::from(self.code) + init;
        part(13, NO_BITS, LOADED + WRITE, address, offset)
    }

    /// That of `.pru.notes`.
    pub fn notes_form(&self) -> Form
        ensures { result ≡ layout.notes_form self.now }
    {
        part(18, PROGRAM_BITS, 0, 0, self.notes_offset())
    }

    /// That of `.resource_table`.
    pub fn table_form(&self) -> Form
        ensures { result ≡ layout.table_form self.now }
    {
        part(29, PROGRAM_BITS, 0, 0, self.table_offset())
    }

    /// That of `.symtab`.
    pub fn symbols_form(&self) -> Form
        ensures { result ≡ layout.symbols_form self.now }
    {
        Form {
            link: 7,
            info: 1,
            entry_size: 16,
            ..part(45, SYMBOL_TABLE, 0, 0, self.symbols_offset())
        }
    }

    /// That of `.strtab`.
    pub fn names_form(&self) -> Form
        ensures { result ≡ layout.names_form self.now }
    {
        strings(53, self.names_offset())
    }

    /// That of `.shstrtab`.
    pub fn section_names_form(&self) -> Form
        ensures { result ≡ layout.section_names_form self.now }
    {
        strings(61, self.section_names_offset())
    }
}
