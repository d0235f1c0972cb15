use super::*;
use isa::Image;
use std::alloc::Global;
use std::test::Fail;

// The executable of `LBCO R2, C28, 0, 4`, `ADD R2, R2, 1`, `SBCO R2, C28, 0, 4`, `HALT`, by hand: the header; the program
// headers at 52 and 84; the code at 116; the resource table at 132; the null symbol at 148; the symbols' names at 164.
const FRONT: [u32; 42] = [
    0x464c457f, 0x10101, 0, 0, 0x900002, 1, 0, 52, 240, 0, 0x200034, 0x280002, 0x80009, 1, 116, 0,
    0, 16, 16, 5, 4, 1, 132, 16, 16, 0, 0, 6, 4, 0x91001c62, 0x101e2e2, 0x81001c62, 0x2a000000, 1,
    0, 0, 0, 0, 0, 0, 0, 0,
];

// The sections' names at 168.
const NAMES: &[u8; 72] =
    b"\0.text\0.data\0.bss\0.pru.notes\0.resource_table\0.symtab\0.strtab\0.shstrtab\0\0";

// The section headers at 240.
const SECTIONS: [[u32; 10]; 9] = [
    [0, 0, 0, 0, 0, 0, 0, 0, 0, 0],
    [1, 1, 6, 0, 116, 16, 0, 0, 4, 0],
    [7, 1, 3, 16, 132, 0, 0, 0, 4, 0],
    [13, 8, 3, 16, 132, 0, 0, 0, 4, 0],
    [18, 1, 0, 0, 132, 0, 0, 0, 4, 0],
    [29, 1, 0, 0, 132, 16, 0, 0, 4, 0],
    [45, 2, 0, 0, 148, 16, 7, 1, 4, 16],
    [53, 3, 0, 0, 164, 1, 0, 0, 1, 0],
    [61, 3, 0, 0, 168, 71, 0, 0, 1, 0],
];

fn file(alloc: Global) -> Result<Vec<u8>, Fail> {
    let mut bytes = Vec::new(alloc);
    for word in &FRONT {
        bytes.extend_from_slice(&word.to_le_bytes())?;
    }
    bytes.extend_from_slice(NAMES)?;
    for section in &SECTIONS {
        for word in section {
            bytes.extend_from_slice(&word.to_le_bytes())?;
        }
    }
    Ok(bytes)
}

/// Reads a short file.
fn loaded(alloc: Global, bytes: &[u8]) -> Result<Result<Image, LoadFault>, Fail> {
    if bytes.len() > 1000 {
        return Err("too long")?;
    }
    Ok(load(alloc, bytes))
}

#[test]
fn an_executable_is_loaded(rt: HostRuntime) -> Result<(), Fail> {
    let bytes = file(rt.alloc())?;
    assert_eq!(rt; bytes.len(), 600);
    let image = loaded(rt.alloc(), &bytes)?.ok().ok_or("an executable")?;
    let words = [0x9100_1c62, 0x0101_e2e2, 0x8100_1c62, 0x2a00_0000];
    assert_eq!(rt; image.words(), words.as_slice());
    assert_eq!(rt; (image.data_at(), image.zero()), (0x10, 0));
    assert!(rt; image.init().is_empty() && image.notes().is_empty());
    Ok(())
}

/// Whether the file is refused there for this cause.
fn is_refused(alloc: Global, bytes: &[u8], at: u32, what: LoadCause) -> Result<bool, Fail> {
    match loaded(alloc, bytes)? {
        Err(LoadFault::At { offset, cause }) => Ok(offset == at && cause == what),
        _ => Ok(false),
    }
}

#[test]
fn a_shorter_file_is_truncated(rt: HostRuntime) -> Result<(), Fail> {
    let bytes = file(rt.alloc())?;
    for len in 0..bytes.len().min(1000) {
        let cut = &bytes[..len];
        assert!(rt;
            is_refused(rt.alloc(), cut, len as u32, LoadCause::Truncated)?,
            "{len}"
        );
    }
    Ok(())
}

// A byte of the file, what it becomes, and the field that is at fault then.
const FAULTS: [(usize, u8, u32, LoadCause); 40] = [
    (5, 2, 0, LoadCause::Header),
    (16, 1, 16, LoadCause::Header),
    (30, 1, 28, LoadCause::Header),
    // A multiple of 4 within the room; nine headers from there on begin with another word.
    (32, 241, 32, LoadCause::Header),
    (32, 220, 32, LoadCause::Header),
    (32, 244, 280, LoadCause::Section),
    (50, 7, 50, LoadCause::Header),
    (52, 2, 52, LoadCause::Segment),
    // Code of a multiple of 4 within the room, and as much in memory.
    (68, 18, 68, LoadCause::Segment),
    (68, 20, 68, LoadCause::Segment),
    (68, 12, 72, LoadCause::Segment),
    (88, 116, 88, LoadCause::Segment),
    // The data's address, also of no data: a multiple of 4 from 0x10 to 0x1dfc.
    (92, 12, 92, LoadCause::Segment),
    (92, 18, 92, LoadCause::Segment),
    (93, 0x1e, 92, LoadCause::Segment),
    (92, 20, 96, LoadCause::Segment),
    (100, 1, 100, LoadCause::Segment),
    (104, 4, 380, LoadCause::Section),
    (106, 1, 104, LoadCause::Segment),
    (108, 7, 108, LoadCause::Segment),
    // The null section header has ten fields.
    (279, 1, 276, LoadCause::Section),
    (280, 2, 280, LoadCause::Section),
    (420, 8, 420, LoadCause::Section),
    (460, 68, 460, LoadCause::Section),
    (500, 32, 500, LoadCause::Section),
    (504, 6, 504, LoadCause::Section),
    // Names of 1 to 4 bytes end where they should, but no symbol has one.
    (540, 5, 540, LoadCause::Section),
    (540, 2, 165, LoadCause::Symbol),
    (580, 72, 580, LoadCause::Section),
    (128, 1, 128, LoadCause::Word),
    (132, 2, 132, LoadCause::Table),
    (136, 1, 136, LoadCause::Table),
    (143, 1, 140, LoadCause::Table),
    (148, 1, 148, LoadCause::Symbol),
    (163, 1, 162, LoadCause::Symbol),
    (164, 1, 164, LoadCause::Symbol),
    (166, 1, 166, LoadCause::Pad),
    (169, 0, 169, LoadCause::Section),
    (238, 1, 238, LoadCause::Section),
    (239, 1, 239, LoadCause::Pad),
];

#[test]
fn the_first_fault_is_named(rt: HostRuntime) -> Result<(), Fail> {
    let mut bytes = file(rt.alloc())?;
    for (at, byte, wanted, cause) in &FAULTS {
        let before = bytes.get(*at).copied().ok_or("a byte of the file")?;
        let place = bytes.get_mut(*at).ok_or("a byte of the file")?;
        *place = *byte;
        assert!(rt; is_refused(rt.alloc(), &bytes, *wanted, *cause)?, "{at}");
        let place = bytes.get_mut(*at).ok_or("a byte of the file")?;
        *place = before;
    }
    bytes.push(0)?;
    assert!(rt; is_refused(rt.alloc(), &bytes, 600, LoadCause::Trailing)?);
    Ok(())
}
