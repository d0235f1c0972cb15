ghost use Rattle.std.specs.Prelude.{◌≡◌, ◌+◌, ◌<◌, ◌≤◌, ◌^◌, ◌++◌, ℕ, length, slice_index, IfOk, OnOk, Ok};
ghost use Rattle.std.specs.List.{flat_map, AllByRecursion};
ghost use Rattle.elfrec.specs.File as layout;

use crate::file::{Contents, ElfFile, Part};
use crate::record::Record;
use crate::section::Section;
use crate::sequence::Sequence;
use prunum::Memory;
use std::alloc::Global;

fn records_bytes<R: Record>(alloc: Global, records: &[R]) -> Result<Vec<u8>, Memory>
    ensures bytes { IfOk result (λ v. v.items ≡ flat_map R.format.bytes records.now) }
    ensures fits { OnOk result (AllByRecursion R.Fits records.now) }
{
    let mut bytes = Vec::new(alloc);
    for record in records {
        record.append_to(&mut bytes)?;
    }
    Ok(bytes)
}

fn contents_bytes(alloc: Global, contents: &Contents) -> Result<Vec<u8>, Memory>
    ensures bytes { IfOk result (λ v. v.items ≡ layout.contents_bytes contents.now) }
    ensures fits { OnOk result (layout.ContentsFit contents.now) }
{
    match contents {
        Contents::Empty => Ok(Vec::new(alloc)),
        Contents::Symbols(symbols) => records_bytes(alloc, symbols.as_slice()),
        Contents::Relas(relas) => records_bytes(alloc, relas.as_slice()),
        Contents::Bytes(bytes) => Ok(Vec::from_slice(alloc, bytes.as_slice())?),
    }
}

fn part(offset: u32, bytes: Vec<u8>) -> Part
    ensures { result ≡ record { offset = offset; bytes = bytes.items } }
{
    Part {
        offset,
        bytes: Sequence::new(bytes),
    }
}

/// Puts what each section holds behind the parts.
fn append_section_parts(
    alloc: Global,
    parts: &mut Vec<Part>,
    sections: &[Section],
    contents: &[Contents],
) -> Result<(), Memory>
    requires { length sections.now ≡ length contents.now }
    ensures parts { OnOk result (parts.new.items ≡ parts.old.items ++ layout.section_parts sections.now contents.now) }
    ensures fits { OnOk result (AllByRecursion layout.ContentsFit contents.now) }
{
    for (i, section) in sections.iter().enumerate() {
        let bytes = contents_bytes(alloc, &contents[i])?;
        parts.push(part(section.offset, bytes))?;
    }
    Ok(())
}

fn parts_of(alloc: Global, f: &ElfFile) -> Result<Vec<Part>, Memory>
    requires { length f.now.sections ≡ length f.now.contents }
    ensures parts { IfOk result (λ v. v.items ≡ layout.parts f.now) }
    ensures fits { OnOk result (layout.FileFits f.now) }
{
    let sections = f.sections.as_slice();
    let header = f.header;
    let mut header_bytes = Vec::new(alloc);
    header.append_to(&mut header_bytes)?;
    let segments_bytes = records_bytes(alloc, f.segments.as_slice())?;
    let sections_bytes = records_bytes(alloc, sections)?;
    let mut parts = Vec::new(alloc);
    parts.push(part(0, header_bytes))?;
    parts.push(part(header.program_header_offset, segments_bytes))?;
    parts.push(part(header.section_header_offset, sections_bytes))?;
    append_section_parts(alloc, &mut parts, sections, f.contents.as_slice())?;
    Ok(parts)
}

/// Where the last byte of a part ends.
fn end_of(parts: &[Part]) -> usize
    ensures { result ≡ layout.end_of parts.now }
{
    let mut end = 0;
    for part in parts {
        let bytes = part.bytes.as_slice();
        if !bytes.is_empty() {
            end = end.max(part.offset as usize + bytes.len());
        }
    }
    end
}

/// Puts the part at its place.
fn put(file: &mut [u8], part: &Part)
    requires { 0 < length part.now.bytes → part.now.offset + length part.now.bytes ≤ length file.old }
    ensures inside { (k : ℕ) → k < length part.now.bytes → slice_index file.new (part.now.offset + k) ≡ slice_index part.now.bytes k }
    ensures outside { (i : ℕ) → (layout.Covers part.now i → ⊥) → slice_index file.new i ≡ slice_index file.old i }
{
    let start = part.offset as usize;
    let bytes = part.bytes.as_slice();
    for (k, byte) in bytes.iter().enumerate() {
        file[start + k] = *byte;
    }
}

/// Puts the parts at their places.
fn put_all(file: &mut [u8], parts: &[Part])
    requires apart { layout.AreApart parts.now }
    requires end { length file.old ≡ layout.end_of parts.now }
    requires zeros { (i : ℕ) → slice_index file.old i ≡ 0 }
    ensures { layout.IsLaidOut parts.now file.new }
{
    for part in parts {
        put(file, part);
    }
}

fn lay_out(alloc: Global, parts: &[Part]) -> Result<Vec<u8>, Memory>
    requires { layout.AreApart parts.now }
    ensures { IfOk result (λ v. layout.IsLaidOut parts.now v.items) }
{
    let mut file = vec![in alloc; 0u8; end_of(parts)]?;
    put_all(&mut file, parts);
    Ok(file)
}

/// The bytes of the file: each part at its place, and bytes of 0 between them.
pub fn write_file(alloc: Global, f: &ElfFile) -> Result<Vec<u8>, Memory>
    requires measured { layout.IsMeasured f.now }
    requires apart { layout.AreApart (layout.parts f.now) }
    ensures laid_out { IfOk result (λ v. layout.IsLaidOut (layout.parts f.now) v.items) }
    // What is written is read again.
    ensures again { IfOk result (λ v. layout.file_of v.items ≡ Ok f.now) }
{
    let parts = parts_of(alloc, f)?;
    lay_out(alloc, &parts)
}
