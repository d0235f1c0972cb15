ghost use Rattle.std.specs.Prelude.{◌≡◌, ◌==◌, ◌+◌, ◌-◌, ◌<◌, ◌^◌, None, position};
ghost use Rattle.std.specs.Int.{w8, w16, w32};
ghost use Rattle.pruelf.specs.declared.fault.LoadCause.TheVariants as causes;
ghost use Rattle.pruelf.specs.Fields.{Gives, judged_in, many_in};
ghost use Rattle.pruelf.specs.Parts as parts;

use crate::fault::{LoadCause, LoadFault};
use crate::fields::{behind, byte, bytes, fixed, half, word, wrong};
use crate::symbol::{Sym, SymbolName, SymbolPart};
use elfrec::Symbol;
use prunum::Width;
use std::alloc::Global;

const OBJECT: u8 = 0x11;

const FUNCTION: u8 = 0x12;

/// Whether a symbol's name may begin here, where its name and those of the symbols to come are `left` names.
fn may_be_name(size: u32, left: u32, before: Option<Symbol>, name: u32) -> bool
    ensures { result ≡ parts.may_be_name size left before name }
{
    match before {
        None => name == 1,
        Some(entry) => { entry.name < name && u64::from(name) + u64::from(left) <= u64::from(size) }
    }
}

#[tactic(auto, unfolding(crate::specs::Fields::judged_in))]
fn entry_name(
    size: u32,
    left: u32,
    before: Option<Symbol>,
    end: usize,
    bytes: &[u8],
) -> Result<(u32, &[u8]), LoadFault>
    requires { end < 2 ^ 31 }
    ensures { Gives (λ x. (x.0, x.1.now)) result (judged_in causes.Symbol w32 (parts.may_be_name size left before) end bytes.now) }
{
    let (name, rest) = word(end, bytes)?;
    if !may_be_name(size, left, before, name) {
        return Err(wrong(LoadCause::Symbol, end, bytes));
    }
    Ok((name, rest))
}

#[tactic(auto, unfolding(crate::specs::Fields::judged_in))]
fn entry_info(end: usize, bytes: &[u8]) -> Result<(u8, &[u8]), LoadFault>
    requires { end < 2 ^ 31 }
    ensures { Gives (λ x. (x.0, x.1.now)) result (judged_in causes.Symbol w8 parts.may_be_info end bytes.now) }
{
    let (info, rest) = byte(end, bytes)?;
    if info != FUNCTION && info != OBJECT {
        return Err(wrong(LoadCause::Symbol, end, bytes));
    }
    Ok((info, rest))
}

#[tactic(auto, unfolding(crate::specs::Fields::judged_in))]
fn entry_section(end: usize, bytes: &[u8]) -> Result<(u16, &[u8]), LoadFault>
    requires { end < 2 ^ 31 }
    ensures { Gives (λ x. (x.0, x.1.now)) result (judged_in causes.Symbol w16 parts.may_be_section end bytes.now) }
{
    let (section, rest) = half(end, bytes)?;
    if section < 1 || 3 < section {
        return Err(wrong(LoadCause::Symbol, end, bytes));
    }
    Ok((section, rest))
}

/// The symbol behind the one before.
#[tactic(auto, unfolding(crate::specs::Parts::entry_in))]
fn entry(
    names: u32,
    left: u32,
    before: Option<Symbol>,
    end: usize,
    bytes: &[u8],
) -> Result<(Symbol, &[u8]), LoadFault>
    requires { end < 2 ^ 31 }
    ensures { Gives (λ x. (x.0, x.1.now)) result (parts.entry_in names end left before bytes.now) }
{
    let (name, rest) = entry_name(names, left, before, end, bytes)?;
    let (value, rest) = word(end, rest)?;
    let (size, rest) = word(end, rest)?;
    let (info, rest) = entry_info(end, rest)?;
    let rest = fixed(LoadCause::Symbol, Width::B1, &[0], end, rest)?;
    let (section, rest) = entry_section(end, rest)?;
    let entry = Symbol {
        name,
        value,
        size,
        info,
        other: 0,
        section,
    };
    Ok((entry, rest))
}

#[tactic(auto, unfolding(crate::specs::Parts::null_in))]
fn null(end: usize, bytes: &[u8]) -> Result<&[u8], LoadFault>
    requires { end < 2 ^ 31 }
    ensures { Gives (λ x. x.now) result (parts.null_in end bytes.now) }
{
    let rest = fixed(LoadCause::Symbol, Width::B4, &[0, 0, 0], end, bytes)?;
    let rest = fixed(LoadCause::Symbol, Width::B1, &[0, 0], end, rest)?;
    fixed(LoadCause::Symbol, Width::B2, &[0], end, rest)
}

/// So many symbols, in their order.
fn many_entries(
    alloc: Global,
    names: u32,
    count: u32,
    end: usize,
    bytes: &[u8],
) -> Result<(Vec<Symbol>, &[u8]), LoadFault>
    requires { end < 2 ^ 31 }
    ensures { Gives (λ x. (x.0.items, x.1.now)) result (many_in (parts.entry_in names end) count None bytes.now) }
{
    let mut entries = Vec::new(alloc);
    let mut before = None;
    let mut rest = bytes;
    'entries: for i in 0..count {
        let (entry, behind) = entry(names, count - i, before, end, rest)?;
        entries.push(entry)?;
        before = Some(entry);
        rest = behind;
    }
    Ok((entries, rest))
}

/// The null symbol, and then so many others, whose names have this size together.
#[tactic(auto, unfolding(crate::specs::Parts::entries_in))]
pub fn entries(
    alloc: Global,
    names: u32,
    count: u32,
    end: usize,
    bytes: &[u8],
) -> Result<(Vec<Symbol>, &[u8]), LoadFault>
    requires { end < 2 ^ 31 }
    ensures { Gives (λ x. (x.0.items, x.1.now)) result (parts.entries_in names count end bytes.now) }
{
    let rest = null(end, bytes)?;
    many_entries(alloc, names, count, end, rest)
}

fn zero_in(text: &[u8]) -> Option<usize>
    ensures { result ≡ position (λ b. b == 0) text.now }
{
    text.iter().position(|b| *b == 0)
}

/// So many bytes, none of them 0, and a byte of 0.
#[tactic(auto, unfolding(crate::specs::Parts::name_in))]
fn name(
    alloc: Global,
    count: usize,
    end: usize,
    file: &[u8],
) -> Result<(SymbolName, &[u8]), LoadFault>
    requires { end < 2 ^ 31 }
    ensures { Gives (λ x. (x.0, x.1.now)) result (parts.name_in count end file.now) }
{
    let (text, rest) = bytes(count, end, file)?;
    if let Some(i) = zero_in(text) {
        return Err(wrong(LoadCause::Symbol, end, &file[i..]));
    }
    let rest = fixed(LoadCause::Symbol, Width::B1, &[0], end, rest)?;
    Ok((SymbolName::from_vec(Vec::from_slice(alloc, text)?), rest))
}

fn part_at(section: u16) -> SymbolPart
    ensures { result ≡ parts.part_at section }
{
    match section {
        1 => SymbolPart::Code,
        2 => SymbolPart::Data,
        3 => SymbolPart::Zero,
        _ => SymbolPart::Used,
    }
}

fn named(name: SymbolName, entry: Symbol) -> Sym
    ensures { result ≡ parts.named name entry }
{
    Sym {
        name,
        part: part_at(entry.section),
        value: entry.value,
        size: entry.size,
        function: entry.info == FUNCTION,
    }
}

/// Where the name ends before these symbols'.
fn end_before(size: u32, entries: &[Symbol]) -> u32
    ensures { result ≡ parts.end_before size entries.now }
{
    match entries {
        [entry, ..] => entry.name,
        [] => size,
    }
}

/// How long the symbol's name is, where these symbols' names stand behind it.
fn name_length(size: u32, entry: &Symbol, others: &[Symbol]) -> u32
    ensures { result ≡ parts.end_before size others.now - entry.now.name - 1 }
{
    end_before(size, others)
        .saturating_sub(entry.name)
        .saturating_sub(1)
}

/// The names of these symbols, one behind the other.
fn many_names<'a>(
    alloc: Global,
    size: u32,
    entries: &[Symbol],
    end: usize,
    bytes: &'a [u8],
) -> Result<(Vec<Sym>, &'a [u8]), LoadFault>
    requires { end < 2 ^ 31 }
    ensures { Gives (λ x. (x.0.items, x.1.now)) result (parts.named_in size entries.now end bytes.now) }
{
    let mut symbols = Vec::new(alloc);
    let mut rest = bytes;
    for (i, entry) in entries.iter().enumerate() {
        let others = behind(entries, i + 1);
        let count = name_length(size, entry, others);
        let (name, after) = name(alloc, count as usize, end, rest)?;
        symbols.push(named(name, *entry))?;
        rest = after;
    }
    Ok((symbols, rest))
}

/// A byte of 0, and the names of these symbols: the symbols with their names.
#[tactic(auto, unfolding(crate::specs::Parts::names_in))]
pub fn names<'a>(
    alloc: Global,
    size: u32,
    entries: &[Symbol],
    end: usize,
    bytes: &'a [u8],
) -> Result<(Vec<Sym>, &'a [u8]), LoadFault>
    requires { end < 2 ^ 31 }
    ensures { Gives (λ x. (x.0.items, x.1.now)) result (parts.names_in size entries.now end bytes.now) }
{
    let rest = fixed(LoadCause::Symbol, Width::B1, &[0], end, bytes)?;
    if entries.is_empty() && 1 < size {
        return Err(wrong(LoadCause::Symbol, end, rest));
    }
    many_names(alloc, size, entries, end, rest)
}
