ghost use Rattle.std.specs.Prelude.{◌≡◌, ◌<◌, ◌^◌, length};
ghost use Rattle.std.specs.Int.{w8};
ghost use Rattle.pruelf.specs.Executable as exec;
ghost use Rattle.pruelf.specs.Fields.{Gives};

use crate::fault::{LoadCause, LoadFault};
use crate::fields::{behind, bytes, fixed_bytes, wrong};
use crate::header::header;
use crate::notes::notes;
use crate::plan::{Plan, padding};
use crate::resources::resources;
use crate::sections::sections;
use crate::segments::segments;
use crate::symbol::Sym;
use crate::symbols::{entries, names};
use crate::words::words;
use isa::Note;
use std::alloc::Global;

/// What an executable holds: the parts of an image, and besides the symbols and the resource table.
#[derive(Debug, Drop)]
pub struct Parts<'a> {
    pub words: Vec<u32>,
    pub data_at: u32,
    pub init: &'a [u8],
    pub zero: u32,
    pub notes: Vec<Note>,
    pub symbols: Vec<Sym>,
    pub table: &'a [u8],
}

/// The sections' names, each behind a byte of 0, and one at the end.
pub const SECTION_NAMES: [u8; 71] =
    *b"\0.text\0.data\0.bss\0.pru.notes\0.resource_table\0.symtab\0.strtab\0.shstrtab\0";

/// What fills a part to a multiple of 4.
fn pad(length: u32, end: usize, bytes: &[u8]) -> Result<&[u8], LoadFault>
    requires { end < 2 ^ 31 }
    ensures { Gives (λ x. x.now) result (exec.pad_in length end bytes.now) }
{
    let count = padding(length);
    if count == 1 {
        return fixed_bytes(LoadCause::Pad, &[0], end, bytes);
    }
    if count == 2 {
        return fixed_bytes(LoadCause::Pad, &[0, 0], end, bytes);
    }
    if count == 3 {
        return fixed_bytes(LoadCause::Pad, &[0, 0, 0], end, bytes);
    }
    Ok(bytes)
}

/// The words and the data.
#[tactic(auto, unfolding(crate::specs::Executable::memory_in))]
fn memory<'a>(
    alloc: Global,
    p: &Plan,
    end: usize,
    file: &'a [u8],
) -> Result<(Vec<u32>, &'a [u8], &'a [u8]), LoadFault>
    requires { end < 2 ^ 31 }
    ensures { Gives (λ x. (record { words = x.0.items; init = x.1.now }, x.2.now)) result (exec.memory_in p.now end file.now) }
{
    let (words, rest) = words(alloc, p.code / 4, end, file)?;
    let (init, rest) = bytes(p.init as usize, end, rest)?;
    let rest = pad(p.init, end, rest)?;
    Ok((words, init, rest))
}

/// The symbols and their names, and the sections' names.
#[tactic(auto, unfolding(crate::specs::Executable::symbols_in))]
fn symbols<'a>(
    alloc: Global,
    p: &Plan,
    end: usize,
    file: &'a [u8],
) -> Result<(Vec<Sym>, &'a [u8]), LoadFault>
    requires { end < 2 ^ 31 }
    ensures { Gives (λ x. (x.0.items, x.1.now)) result (exec.symbols_in p.now end file.now) }
{
    let count = (p.symbols / 16).saturating_sub(1);
    let (entries, rest) = entries(alloc, p.names, count, end, file)?;
    let (symbols, rest) = names(alloc, p.names, &entries, end, rest)?;
    let rest = pad(p.names, end, rest)?;
    let rest = fixed_bytes(LoadCause::Section, &SECTION_NAMES, end, rest)?;
    let rest = fixed_bytes(LoadCause::Pad, &[0], end, rest)?;
    Ok((symbols, rest))
}

/// The parts in the order of the file.
#[tactic(auto, unfolding(crate::specs::Executable::parts_in))]
fn all_parts<'a>(
    alloc: Global,
    p: &Plan,
    end: usize,
    file: &'a [u8],
) -> Result<Parts<'a>, LoadFault>
    requires end { end < 2 ^ 31 }
    requires table { p.now.table < 2 ^ 31 }
    ensures { Gives exec.held result (exec.parts_in p.now end file.now) }
{
    let (words, init, rest) = memory(alloc, p, end, file)?;
    let (notes, rest) = notes(alloc, &words, p.notes / 8, end, rest)?;
    let (table, rest) = resources(alloc, p.table, end, rest)?;
    let (symbols, _) = symbols(alloc, p, end, rest)?;
    Ok(Parts {
        words,
        data_at: p.data_at,
        init,
        zero: p.memory.saturating_sub(p.init),
        notes,
        symbols,
        table,
    })
}

/// What an executable holds.
#[tactic(auto, unfolding(crate::specs::Executable::executable_in))]
pub fn executable(alloc: Global, file: &[u8]) -> Result<Parts<'_>, LoadFault>
    requires { length file.now < 2 ^ 31 }
    ensures { Gives exec.held result (exec.executable_in file.now) }
{
    let end = file.len();
    let (sections_at, rest) = header(end, file)?;
    let (loads, rest) = segments(sections_at, end, rest)?;
    let headers = behind(file, sections_at as usize);
    let (plan, trailing) = sections(Plan::begun(sections_at, loads), end, headers)?;
    let parts = all_parts(alloc, &plan, end, rest)?;
    if !trailing.is_empty() {
        return Err(wrong(LoadCause::Trailing, end, trailing));
    }
    Ok(parts)
}
