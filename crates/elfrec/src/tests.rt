ghost use Rattle.std.specs.Prelude.{◌≡◌, [], ◌∷◌, IfOk};
ghost use Rattle.elfrec.specs.File.{AreApart, Describes, IsMeasured, parts};

use super::*;
use bitflags::Flags;
use prunum::Memory;
use std::alloc::Global;
use std::test::Fail;

// The header; a program header at 52; four bytes of text at 84, a symbol at 88 and a relocation at 104; the section
// headers of these three at 116, 156 and 196.
const FILE: [u8; 236] = [
    0x7f, 0x45, 0x4c, 0x46, 1, 1, 1, 0, 0, 0, 0, 0, 0, 0, 0, 0, 1, 0, 0x90, 0, 1, 0, 0, 0, 0, 0, 0,
    0, 0x34, 0, 0, 0, 0x74, 0, 0, 0, 0, 0, 0, 0, 0x34, 0, 0x20, 0, 1, 0, 0x28, 0, 3, 0, 0, 0, 1, 0,
    0, 0, 0x54, 0, 0, 0, 0, 0, 0, 0, 0, 0, 0, 0, 4, 0, 0, 0, 4, 0, 0, 0, 5, 0, 0, 0, 4, 0, 0, 0,
    0x10, 0x20, 0x30, 0x40, 1, 0, 0, 0, 0, 0, 0, 0, 4, 0, 0, 0, 0x12, 0, 1, 0, 2, 0, 0, 0, 4, 1, 0,
    0, 0xfd, 0xff, 0xff, 0xff, 1, 0, 0, 0, 1, 0, 0, 0, 6, 0, 0, 0, 0, 0, 0, 0, 0x54, 0, 0, 0, 4, 0,
    0, 0, 0, 0, 0, 0, 0, 0, 0, 0, 4, 0, 0, 0, 0, 0, 0, 0, 7, 0, 0, 0, 2, 0, 0, 0, 0, 0, 0, 0, 0, 0,
    0, 0, 0x58, 0, 0, 0, 0x10, 0, 0, 0, 0, 0, 0, 0, 1, 0, 0, 0, 4, 0, 0, 0, 0x10, 0, 0, 0, 0x0f, 0,
    0, 0, 4, 0, 0, 0, 0, 0, 0, 0, 0, 0, 0, 0, 0x68, 0, 0, 0, 0x0c, 0, 0, 0, 1, 0, 0, 0, 0, 0, 0, 0,
    4, 0, 0, 0, 0x0c, 0, 0, 0,
];

const HEADER: Header = Header {
    identification: [0x7f, 0x45, 0x4c, 0x46, 1, 1, 1, 0, 0, 0, 0, 0, 0, 0, 0, 0],
    file_type: 1,
    machine: 144,
    version: 1,
    entry: 0,
    program_header_offset: 52,
    section_header_offset: 116,
    flags: 0,
    header_size: 52,
    program_header_size: 32,
    program_header_count: 1,
    section_header_size: 40,
    section_header_count: 3,
    section_name_table: 0,
};

const SEGMENT: Segment = Segment {
    segment_type: 1,
    offset: 84,
    virtual_address: 0,
    physical_address: 0,
    file_size: 4,
    memory_size: 4,
    flags: 5,
    alignment: 4,
};

const SYMBOL: Symbol = Symbol {
    name: 1,
    value: 0,
    size: 4,
    info: 0x12,
    other: 0,
    section: 1,
};

const RELA: Rela = Rela {
    offset: 2,
    info: 0x104,
    addend: -3,
};

fn text() -> Section
    ensures { Describes result (Contents.Bytes (16 ∷ 32 ∷ 48 ∷ 64 ∷ [])) × (result.offset ≡ 84) }
{
    Section {
        name: 1,
        section_type: Section::PROGRAM_BITS,
        flags: SectionFlags::ALLOC | SectionFlags::EXECINSTR,
        address: 0,
        offset: 84,
        size: 4,
        link: 0,
        info: 0,
        alignment: 4,
        entry_size: 0,
    }
}

fn symbols() -> Section
    ensures { Describes result (Contents.Symbols (SYMBOL ∷ [])) × (result.offset ≡ 88) }
{
    Section {
        name: 7,
        section_type: Section::SYMBOL_TABLE,
        flags: SectionFlags::empty(),
        address: 0,
        offset: 88,
        size: 16,
        link: 0,
        info: 1,
        alignment: 4,
        entry_size: 16,
    }
}

fn relas() -> Section
    ensures { Describes result (Contents.Relas (RELA ∷ [])) × (result.offset ≡ 104) }
{
    Section {
        name: 15,
        section_type: Section::RELA,
        flags: SectionFlags::empty(),
        address: 0,
        offset: 104,
        size: 12,
        link: 1,
        info: 0,
        alignment: 4,
        entry_size: 12,
    }
}

fn contents(alloc: Global) -> Result<Vec<Contents>, Memory>
    ensures { IfOk result (λ v. v.items ≡ Contents.Bytes (16 ∷ 32 ∷ 48 ∷ 64 ∷ []) ∷ Contents.Symbols (SYMBOL ∷ [])
        ∷ Contents.Relas (RELA ∷ []) ∷ []) }
{
    let bytes = vec![in alloc; 16, 32, 48, 64]?;
    let symbols = vec![in alloc; SYMBOL]?;
    let relas = vec![in alloc; RELA]?;
    let contents = vec![in alloc;
        Contents::Bytes(Sequence::new(bytes)),
        Contents::Symbols(Sequence::new(symbols)),
        Contents::Relas(Sequence::new(relas)),
    ]?;
    Ok(contents)
}

fn example(alloc: Global) -> Result<ElfFile, Memory>
    ensures measured { IfOk result IsMeasured }
    ensures apart { IfOk result (λ f. AreApart (parts f)) }
{
    let segments = vec![in alloc; SEGMENT]?;
    let sections = vec![in alloc; text(), symbols(), relas()]?;
    let contents = contents(alloc)?;
    Ok(ElfFile {
        header: HEADER,
        segments: Sequence::new(segments),
        sections: Sequence::new(sections),
        contents: Sequence::new(contents),
    })
}

#[test]
fn writes_each_part(rt: HostRuntime) -> Result<(), Fail> {
    let file = example(rt.alloc())?;
    let bytes = write_file(rt.alloc(), &file)?;
    assert_eq!(rt; bytes.as_slice(), FILE.as_slice());
    Ok(())
}

#[test]
fn reads_each_record(rt: HostRuntime) -> Result<(), Fail> {
    let file = read_file(rt.alloc(), &FILE)?;
    assert_eq!(rt; file.header, HEADER);
    assert_eq!(rt; file.segments.as_slice(), [SEGMENT].as_slice());
    assert_eq!(rt;
        file.sections.as_slice(),
        [text(), symbols(), relas()].as_slice()
    );
    let contents = file.contents.into_vec();
    for (section, held) in contents.iter().enumerate() {
        match held {
            Contents::Bytes(bytes) => {
                assert_eq!(rt; section, 0);
                assert_eq!(rt; bytes.as_slice(), [0x10, 0x20, 0x30, 0x40].as_slice());
            }
            Contents::Symbols(symbols) => {
                assert_eq!(rt; section, 1);
                assert_eq!(rt; symbols.as_slice(), [SYMBOL].as_slice());
            }
            Contents::Relas(relas) => {
                assert_eq!(rt; section, 2);
                assert_eq!(rt; relas.as_slice(), [RELA].as_slice());
            }
            Contents::Empty => return Err("no section is empty".into()),
        }
    }
    assert_eq!(rt; contents.len(), 3);
    Ok(())
}

#[test]
fn names_the_first_record_that_is_cut(rt: HostRuntime) {
    for n in 0..FILE.len() {
        let offset = match n {
            0..52 => 0,
            52..84 => 52,
            84..156 => 116,
            156..196 => 156,
            _ => 196,
        };
        assert_eq!(rt;
            read_file(rt.alloc(), &FILE[..n]).err(),
            short(offset),
            "cut at {n}"
        );
    }
}

fn short(offset: u32) -> Option<ElfFault> {
    Some(ElfFault::At {
        offset,
        cause: ElfCause::Short,
    })
}

fn wrong_size(offset: u32) -> Option<ElfFault> {
    Some(ElfFault::At {
        offset,
        cause: ElfCause::Size,
    })
}

fn changed(mut bytes: [u8; 236], (at, value): (usize, u8)) -> [u8; 236] {
    if let Some(byte) = bytes.get_mut(at) {
        *byte = value;
    }
    bytes
}

#[test]
fn names_the_first_fault(rt: HostRuntime) {
    // two bytes that are changed, and the fault that comes of it
    for (first, second, fault) in [
        // entry sizes in the header
        ((42, 31), (42, 31), wrong_size(0)),
        ((46, 41), (46, 41), wrong_size(0)),
        // entry sizes and lengths in the section headers
        ((192, 15), (192, 15), wrong_size(156)),
        ((176, 17), (176, 17), wrong_size(156)),
        ((232, 13), (232, 13), wrong_size(196)),
        ((216, 11), (216, 11), wrong_size(196)),
        // bytes and records that run out of the file by one byte, and the last that don't
        ((136, 153), (136, 153), short(84)),
        ((136, 152), (136, 152), None),
        ((172, 221), (172, 221), short(221)),
        ((172, 220), (172, 220), None),
        ((212, 225), (212, 225), short(225)),
        ((212, 224), (212, 224), None),
        // of ten symbols from 88 on the last runs out of the file
        ((176, 160), (176, 160), short(232)),
        // sections of types 0 and 8 have no bytes
        ((136, 153), (120, 0), None),
        ((136, 153), (120, 8), None),
        // no bytes run out, wherever they stand
        ((136, 0), (133, 2), None),
        // the section headers are judged before what the sections hold
        ((136, 153), (192, 15), wrong_size(156)),
        ((136, 153), (172, 221), short(84)),
    ] {
        let bytes = changed(changed(FILE, first), second);
        assert_eq!(rt;
            read_file(rt.alloc(), &bytes).err(),
            fault,
            "{first:?} {second:?}"
        );
    }
}
