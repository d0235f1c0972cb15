ghost use Rattle.std.specs.Prelude.{◌≡◌, ◌+◌, ◌<◌, ◌≤◌, ◌^◌, length, OnOk, IfOk, Ok};
ghost use Rattle.elfrec.specs.declared.file.ElfFile.{ElfFile};
ghost use Rattle.elfrec.specs.File.{IsFileOf, all_contents_of, contents_of, file_of};
ghost use Rattle.elfrec.specs.Record.{Gives, bytes_at, record_at, records_at};
ghost use Rattle.elfrec.specs.Section.{kind_of};

use crate::fault::{ElfCause, ElfFault};
use crate::file::{Contents, ElfFile};
use crate::header::Header;
use crate::record::Record;
use crate::rela::Rela;
use crate::section::{Section, SectionKind};
use crate::sequence::Sequence;
use crate::symbol::Symbol;
use std::alloc::Global;

fn read_record<R: Record>(bytes: &[u8], at: u32) -> Result<R, ElfFault>
    ensures gives { Gives (λ r. r) result (record_at R.format at bytes.now) }
    ensures whole { OnOk result (at + R.format.size ≤ length bytes.now) }
{
    let start = at as usize;
    let end = start + R::size() as usize;
    if bytes.len() < end {
        return Err(ElfFault::At {
            offset: at,
            cause: ElfCause::Short,
        });
    }
    let record = R::from_bytes(&bytes[start..end]);
    if !record.has_right_sizes() {
        return Err(ElfFault::At {
            offset: at,
            cause: ElfCause::Size,
        });
    }
    Ok(record)
}

fn read_records<R: Record>(
    alloc: Global,
    bytes: &[u8],
    count: u32,
    at: u32,
) -> Result<Vec<R>, ElfFault>
    requires { length bytes.now < 2 ^ 31 }
    ensures { Gives (λ v. v.items) result (records_at R.format count at bytes.now) }
{
    let mut records = Vec::new(alloc);
    let mut next = at;
    for _ in 0..count {
        let record = read_record(bytes, next)?;
        records.push(record)?;
        next += R::size();
    }
    Ok(records)
}

fn read_bytes(alloc: Global, bytes: &[u8], size: u32, at: u32) -> Result<Vec<u8>, ElfFault>
    ensures { Gives (λ v. v.items) result (bytes_at size at bytes.now) }
{
    if size == 0 {
        return Ok(Vec::new(alloc));
    }
    let start = at as usize;
    let end = start + size as usize;
    if bytes.len() < end {
        return Err(ElfFault::At {
            offset: at,
            cause: ElfCause::Short,
        });
    }
    Ok(Vec::from_slice(alloc, &bytes[start..end])?)
}

#[tactic(auto, unfolding(crate::specs::File::contents_of))]
fn read_contents(alloc: Global, bytes: &[u8], section: &Section) -> Result<Contents, ElfFault>
    requires { length bytes.now < 2 ^ 31 }
    ensures { Gives (λ c. c) result (contents_of (kind_of section.now.section_type) section.now bytes.now) }
{
    match section.kind() {
        SectionKind::Empty => Ok(Contents::Empty),
        SectionKind::Symbols => {
            let symbols = read_records(
                alloc,
                bytes,
                section.size / Symbol::size(),
                section.offset,
            )?;
            Ok(Contents::Symbols(Sequence::new(symbols)))
        }
        SectionKind::Relas => {
            let relas = read_records(alloc, bytes, section.size / Rela::size(), section.offset)?;
            Ok(Contents::Relas(Sequence::new(relas)))
        }
        SectionKind::Bytes => {
            let others = read_bytes(alloc, bytes, section.size, section.offset)?;
            Ok(Contents::Bytes(Sequence::new(others)))
        }
    }
}

fn read_all_contents(
    alloc: Global,
    bytes: &[u8],
    sections: &[Section],
) -> Result<Vec<Contents>, ElfFault>
    requires { length bytes.now < 2 ^ 31 }
    ensures { Gives (λ v. v.items) result (all_contents_of sections.now bytes.now) }
{
    let mut contents = Vec::new(alloc);
    for section in sections {
        let held = read_contents(alloc, bytes, section)?;
        contents.push(held)?;
    }
    Ok(contents)
}

#[tactic(auto, unfolding(crate::specs::File::file_of))]
fn read_parts(alloc: Global, bytes: &[u8]) -> Result<ElfFile, ElfFault>
    requires { length bytes.now < 2 ^ 31 }
    ensures { Gives (λ f. f) result (file_of bytes.now) }
{
    let header: Header = read_record(bytes, 0)?;
    let segments = read_records(
        alloc,
        bytes,
        u32::from(header.program_header_count),
        header.program_header_offset,
    )?;
    let sections = read_records(
        alloc,
        bytes,
        u32::from(header.section_header_count),
        header.section_header_offset,
    )?;
    let contents = read_all_contents(alloc, bytes, &sections)?;
    Ok(ElfFile {
        header,
        segments: Sequence::new(segments),
        sections: Sequence::new(sections),
        contents: Sequence::new(contents),
    })
}

/// The file that the bytes are: its records in order, and what each section holds.
///
/// A fault is the first one, in the order header, program headers, section headers, sections by number.
pub fn read_file(alloc: Global, bytes: &[u8]) -> Result<ElfFile, ElfFault>
    requires { length bytes.now < 2 ^ 31 }
    // Each part of what is read stands at its place.
    ensures found { IfOk result (λ f. IsFileOf f bytes.now) }
    // A file each part of which stands at its place is read, unless memory runs out.
    ensures only { (f : ElfFile) → IsFileOf f bytes.now → Gives (λ g. g) result (Ok f) }
    // Which fault it is.
    ensures exact { Gives (λ f. f) result (file_of bytes.now) }
{
    read_parts(alloc, bytes)
}
