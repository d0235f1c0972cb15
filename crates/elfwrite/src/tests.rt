ghost use Rattle.std.specs.Prelude.{◌≡◌, ◌==◌, position};

use super::*;
use isa::{Image, Note, NoteKind, is_image};
use pruelf::{LoadCause, LoadFault, Sym, SymbolName, SymbolPart, load};
use restable::{Name, Trace, is_name};
use std::alloc::Global;
use std::test::Fail;

/// `LBCO R2, C28, 0, 4`, `ADD R2, R2, 1`, `SBCO R2, C28, 0, 4`, `HALT`.
const ADDING: [u32; 4] = [0x9100_1c62, 0x0101_e2e2, 0x8100_1c62, 0x2a00_0000];

/// `LDI R2, 3`, `L1: SUB R2, R2, 1`, `QBNE L1, R2, 0`, `HALT`.
const COUNTING: [u32; 4] = [0x2400_03e2, 0x0501_e2e2, 0x6f00_e2ff, 0x2a00_0000];

/// `LOOP L1, 4`, `ADD R2, R2, 1`, `L1: OR R30, R2, R2`, `HALT`.
const LOOPING: [u32; 4] = [0x3103_0100, 0x0101_e2e2, 0x12e2_e2fe, 0x2a00_0000];

// By hand: the header; the program headers at 52 and 84. The code follows at 116.
const FRONT: [u32; 29] = [
    0x464c457f, 0x10101, 0, 0, 0x900002, 1, 0, 52, 240, 0, 0x200034, 0x280002, 0x80009, 1, 116, 0,
    0, 16, 16, 5, 4, 1, 132, 16, 16, 0, 0, 6, 4,
];

// The resource table at 132; the null symbol at 148; the symbols' names at 164.
const BEHIND_CODE: [u32; 9] = [1, 0, 0, 0, 0, 0, 0, 0, 0];

// The sections' names at 168.
const NAMES: &[u8; 72] =
    b"\0.text\0.data\0.bss\0.pru.notes\0.resource_table\0.symtab\0.strtab\0.shstrtab\0\0";

// The section headers at 240.
const SECTIONS: [[u32; 10]; 9] = [
    [0, 0, 0, 0, 0, 0, 0, 0, 0, 0],
    [1, 1, 6, 0, 116, 16, 0, 0, 4, 0],
    [7, 1, 3, 16, 132, 0, 0, 0, 4, 0],
    [13, 8, 3, 16, 132, 0, 0, 0, 4, 0],
    [18, 1, 0, 0, 132, 0, 0, 0, 4, 0],
    [29, 1, 0, 0, 132, 16, 0, 0, 4, 0],
    [45, 2, 0, 0, 148, 16, 7, 1, 4, 16],
    [53, 3, 0, 0, 164, 1, 0, 0, 1, 0],
    [61, 3, 0, 0, 168, 71, 0, 0, 1, 0],
];

fn put_all(bytes: &mut Vec<u8>, words: &[u32]) -> Result<(), Fail> {
    for word in words {
        bytes.extend_from_slice(&word.to_le_bytes())?;
    }
    Ok(())
}

fn put_end(bytes: &mut Vec<u8>, sections: &[[u32; 10]; 9]) -> Result<(), Fail> {
    bytes.extend_from_slice(NAMES)?;
    for section in sections {
        put_all(bytes, section)?;
    }
    Ok(())
}

/// The file of four words alone.
fn file(alloc: Global, code: &[u32; 4]) -> Result<Vec<u8>, Fail> {
    let mut bytes = Vec::new(alloc);
    put_all(&mut bytes, &FRONT)?;
    put_all(&mut bytes, code)?;
    put_all(&mut bytes, &BEHIND_CODE)?;
    put_end(&mut bytes, &SECTIONS)?;
    Ok(bytes)
}

/// The image of these words, and of data at this address.
fn image(
    alloc: Global,
    words: &[u32],
    data_at: u32,
    init: &[u8],
    zero: u32,
    notes: &[Note],
) -> Result<Image, Fail> {
    if !is_image(words, data_at, init, zero, notes) {
        return Err("an image")?;
    }
    let words = Vec::from_slice(alloc, words)?;
    let init = Vec::from_slice(alloc, init)?;
    let notes = Vec::from_slice(alloc, notes)?;
    Ok(Image::new(words, data_at, init, zero, notes))
}

/// The executable of these words alone.
fn written(alloc: Global, words: &[u32]) -> Result<Vec<u8>, Fail> {
    let image = image(alloc, words, 0x10, &[], 0, &[])?;
    Ok(write_image(alloc, &image)?)
}

#[test]
fn words_alone_are_written(rt: HostRuntime) -> Result<(), Fail> {
    let alloc = rt.alloc();
    for code in &[ADDING, COUNTING, LOOPING] {
        let bytes = written(alloc, code)?;
        let wanted = file(alloc, code)?;
        assert_eq!(rt; bytes.as_slice(), wanted.as_slice());
    }
    Ok(())
}

/// Reads a short file.
fn loaded(alloc: Global, bytes: &[u8]) -> Result<Result<Image, LoadFault>, Fail> {
    if bytes.len() > 1000 {
        return Err("too long")?;
    }
    Ok(load(alloc, bytes))
}

#[test]
fn words_alone_are_read_again(rt: HostRuntime) -> Result<(), Fail> {
    let alloc = rt.alloc();
    for code in &[ADDING, COUNTING, LOOPING] {
        let bytes = written(alloc, code)?;
        let again = loaded(alloc, &bytes)?.ok().ok_or("an executable")?;
        assert_eq!(rt; again.words(), code.as_slice());
        assert_eq!(rt; (again.data_at(), again.zero()), (0x10, 0));
        assert!(rt; again.init().is_empty() && again.notes().is_empty());
    }
    Ok(())
}

/// Where the file is refused, and why.
fn refused(alloc: Global, bytes: &[u8]) -> Result<(u32, LoadCause), Fail> {
    match loaded(alloc, bytes)? {
        Err(LoadFault::At { offset, cause }) => Ok((offset, cause)),
        _ => Err("a fault")?,
    }
}

#[test]
fn what_is_written_and_changed_is_refused(rt: HostRuntime) -> Result<(), Fail> {
    let alloc = rt.alloc();
    let mut bytes = written(alloc, &ADDING)?;
    for len in 0..bytes.len().min(52) {
        let fault = refused(alloc, &bytes[..len])?;
        assert_eq!(rt; fault, (len as u32, LoadCause::Truncated));
    }
    bytes.push(0)?;
    assert_eq!(rt; refused(alloc, &bytes)?, (600, LoadCause::Trailing));
    let place = bytes.get_mut(88).ok_or("a byte of the file")?;
    *place = 116;
    assert_eq!(rt; refused(alloc, &bytes)?, (88, LoadCause::Segment));
    Ok(())
}

const NOTES: [Note; 2] = [
    Note {
        word: 0,
        kind: NoteKind::Enter,
        value: 7,
    },
    Note {
        word: 2,
        kind: NoteKind::Own,
        value: 0,
    },
];

// Three bytes of data at 0x20 and five bytes 0 behind them: the data in the file at 132, filled with one byte; the notes at
// 136; the resource table at 152; the null symbol at 168; the symbols' names at 184; the sections' names at 188; the section
// headers at 260.
const FRONT_WITH_DATA: [u32; 29] = [
    0x464c457f, 0x10101, 0, 0, 0x900002, 1, 0, 52, 260, 0, 0x200034, 0x280002, 0x80009, 1, 116, 0,
    0, 16, 16, 5, 4, 1, 132, 32, 32, 3, 8, 6, 4,
];

const BEHIND_CODE_WITH_DATA: [u32; 14] = [
    0x30201, 0x10000, 7, 0x50002, 0, 1, 0, 0, 0, 0, 0, 0, 0, 0,
];

const SECTIONS_WITH_DATA: [[u32; 10]; 9] = [
    [0, 0, 0, 0, 0, 0, 0, 0, 0, 0],
    [1, 1, 6, 0, 116, 16, 0, 0, 4, 0],
    [7, 1, 3, 32, 132, 3, 0, 0, 4, 0],
    [13, 8, 3, 35, 135, 5, 0, 0, 4, 0],
    [18, 1, 0, 0, 136, 16, 0, 0, 4, 0],
    [29, 1, 0, 0, 152, 16, 0, 0, 4, 0],
    [45, 2, 0, 0, 168, 16, 7, 1, 4, 16],
    [53, 3, 0, 0, 184, 1, 0, 0, 1, 0],
    [61, 3, 0, 0, 188, 71, 0, 0, 1, 0],
];

fn file_with_data(alloc: Global) -> Result<Vec<u8>, Fail> {
    let mut bytes = Vec::new(alloc);
    put_all(&mut bytes, &FRONT_WITH_DATA)?;
    put_all(&mut bytes, &ADDING)?;
    put_all(&mut bytes, &BEHIND_CODE_WITH_DATA)?;
    put_end(&mut bytes, &SECTIONS_WITH_DATA)?;
    Ok(bytes)
}

#[test]
fn data_and_notes_are_written(rt: HostRuntime) -> Result<(), Fail> {
    let alloc = rt.alloc();
    let image = image(alloc, &ADDING, 0x20, &[1, 2, 3], 5, &NOTES)?;
    let bytes = write_image(alloc, &image)?;
    let wanted = file_with_data(alloc)?;
    assert_eq!(rt; bytes.as_slice(), wanted.as_slice());
    Ok(())
}

#[test]
fn data_and_notes_are_read_again(rt: HostRuntime) -> Result<(), Fail> {
    let alloc = rt.alloc();
    let image = image(alloc, &ADDING, 0x20, &[1, 2, 3], 5, &NOTES)?;
    let bytes = write_image(alloc, &image)?;
    let again = loaded(alloc, &bytes)?.ok().ok_or("an executable")?;
    assert_eq!(rt; (again.data_at(), again.zero()), (0x20, 5));
    assert_eq!(rt; again.init(), [1, 2, 3].as_slice());
    assert_eq!(rt; again.notes(), NOTES.as_slice());
    Ok(())
}

// As before, with a trace and three symbols: the resource table at 152; the null symbol at 220 and the others behind it; the
// symbols' names at 284; the sections' names at 296; the section headers at 368.
const FRONT_WITH_SYMBOLS: [u32; 29] = [
    0x464c457f, 0x10101, 0, 0, 0x900002, 1, 0, 52, 368, 0, 0x200034, 0x280002, 0x80009, 1, 116, 0,
    0, 16, 16, 5, 4, 1, 132, 32, 32, 3, 8, 6, 4,
];

// The data and the notes; the table of one entry at 20 in it; the symbols `main`, `x` and `y`.
const BEHIND_CODE_WITH_SYMBOLS: [u32; 38] = [
    0x30201, 0x10000, 7, 0x50002, 0, 1, 1, 0, 0, 20, 2, 0x10000, 256, 0, 0x676f6c, 0, 0, 0, 0, 0,
    0, 0, 0, 0, 0, 0, 1, 0, 16, 0x10012, 6, 32, 3, 0x20011, 8, 35, 5, 0x30011,
];

const SECTIONS_WITH_SYMBOLS: [[u32; 10]; 9] = [
    [0, 0, 0, 0, 0, 0, 0, 0, 0, 0],
    [1, 1, 6, 0, 116, 16, 0, 0, 4, 0],
    [7, 1, 3, 32, 132, 3, 0, 0, 4, 0],
    [13, 8, 3, 35, 135, 5, 0, 0, 4, 0],
    [18, 1, 0, 0, 136, 16, 0, 0, 4, 0],
    [29, 1, 0, 0, 152, 68, 0, 0, 4, 0],
    [45, 2, 0, 0, 220, 64, 7, 1, 4, 16],
    [53, 3, 0, 0, 284, 10, 0, 0, 1, 0],
    [61, 3, 0, 0, 296, 71, 0, 0, 1, 0],
];

fn file_with_symbols(alloc: Global) -> Result<Vec<u8>, Fail> {
    let mut bytes = Vec::new(alloc);
    put_all(&mut bytes, &FRONT_WITH_SYMBOLS)?;
    put_all(&mut bytes, &ADDING)?;
    put_all(&mut bytes, &BEHIND_CODE_WITH_SYMBOLS)?;
    bytes.extend_from_slice(b"\0main\0x\0y\0\0\0")?;
    put_end(&mut bytes, &SECTIONS_WITH_SYMBOLS)?;
    Ok(bytes)
}

/// Where the first byte of 0 is.
fn zero_in(text: &[u8]) -> Option<usize>
    ensures { result ≡ position (λ b. b == 0) text.now }
{
    text.iter().position(|b| *b == 0)
}

/// The symbol of this name.
fn symbol(
    alloc: Global,
    name: &[u8],
    part: SymbolPart,
    value: u32,
    size: u32,
) -> Result<Sym, Fail> {
    if zero_in(name).is_some() {
        return Err("the name of a symbol")?;
    }
    let name = SymbolName::from_vec(Vec::from_slice(alloc, name)?);
    let function = part == SymbolPart::Code;
    Ok(Sym {
        name,
        part,
        value,
        size,
        function,
    })
}

/// The function `main`, `x` in the data and `y` in the zero part.
fn three_symbols(alloc: Global) -> Result<Vec<Sym>, Fail> {
    let mut symbols = Vec::new(alloc);
    symbols.push(symbol(alloc, b"main", SymbolPart::Code, 0, 16)?)?;
    symbols.push(symbol(alloc, b"x", SymbolPart::Data, 32, 3)?)?;
    symbols.push(symbol(alloc, b"y", SymbolPart::Zero, 35, 5)?)?;
    Ok(symbols)
}

/// The trace `log`.
fn log(alloc: Global) -> Result<Trace, Fail> {
    let name = b"log".as_slice();
    if !is_name(name) {
        return Err("the name of a trace")?;
    }
    Ok(Trace {
        name: Name::from_vec(Vec::from_slice(alloc, name)?),
        addr: 0x10000,
        len: 256,
    })
}

fn extra(alloc: Global) -> Result<Extra, Fail> {
    let symbols = three_symbols(alloc)?;
    if !are_defined(&symbols) {
        return Err("symbols that are defined")?;
    }
    Ok(Extra::with_traces(alloc, symbols, &[log(alloc)?])?)
}

/// The executable of an image and what stands besides.
fn written_with(alloc: Global, image: &Image, extra: &Extra) -> Result<Vec<u8>, Fail> {
    if !can_be_written(image, extra) {
        return Err("a short executable")?;
    }
    Ok(write_exec(alloc, image, extra)?)
}

#[test]
fn symbols_and_traces_are_written(rt: HostRuntime) -> Result<(), Fail> {
    let alloc = rt.alloc();
    let image = image(alloc, &ADDING, 0x20, &[1, 2, 3], 5, &NOTES)?;
    let bytes = written_with(alloc, &image, &extra(alloc)?)?;
    let wanted = file_with_symbols(alloc)?;
    assert_eq!(rt; bytes.len(), 728);
    assert_eq!(rt; bytes.as_slice(), wanted.as_slice());
    Ok(())
}

#[test]
fn what_is_only_used_is_no_symbol_of_an_executable(rt: HostRuntime) -> Result<(), Fail> {
    let alloc = rt.alloc();
    let mut symbols = three_symbols(alloc)?;
    assert!(rt; are_defined(&symbols));
    symbols.push(symbol(alloc, b"printf", SymbolPart::Used, 0, 0)?)?;
    assert!(rt; !are_defined(&symbols));
    Ok(())
}
