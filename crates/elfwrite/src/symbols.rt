//! The parts that hold the resource table, the symbols and names.

ghost use Rattle.std.specs.Prelude.{◌≡◌, ◌<◌, ◌^◌, ◌++◌, length, IfOk, OnOk};
ghost use Rattle.elfwrite.specs.Written as written;

use crate::bytes::{put_filled, put_halves, put_words};
use crate::extra::Extra;
use pruelf::{SECTION_NAMES, Sym, SymbolPart};
use prunum::Memory;
use std::alloc::Global;

fn info_of(function: bool) -> u8
    ensures { result ≡ written.info_of function }
{
    if function { 0x12 } else { 0x11 }
}

fn section_of(part: SymbolPart) -> u64
    ensures { result ≡ written.section_of part }
{
    match part {
        SymbolPart::Used => 0,
        SymbolPart::Code => 1,
        SymbolPart::Data => 2,
        SymbolPart::Zero => 3,
    }
}

/// A symbol whose name begins at this place.
fn put_symbol(out: &mut Vec<u8>, name: usize, symbol: &Sym) -> Result<(), Memory>
    ensures { OnOk result (out.new.items ≡ out.old.items ++ written.symbol_bytes name symbol.now) }
{
    let value = u64::from(symbol.value);
    let size = u64::from(symbol.size);
    put_words(out, &[name as u64, value, size])?;
    out.extend_from_slice(&[info_of(symbol.function), 0])?;
    put_halves(out, &[section_of(symbol.part)])
}

/// The symbols, whose names have this length together.
fn put_symbols(out: &mut Vec<u8>, symbols: &[Sym]) -> Result<(), Memory>
    requires { length (written.names_bytes symbols.now) < 2 ^ 32 }
    ensures { OnOk result (out.new.items ≡ out.old.items ++ written.symbols_bytes 1 symbols.now) }
{
    let mut name = 1;
    for symbol in symbols {
        put_symbol(out, name, symbol)?;
        name += symbol.name.as_slice().len() + 1;
    }
    Ok(())
}

fn put_name(out: &mut Vec<u8>, symbol: &Sym) -> Result<(), Memory>
    ensures { OnOk result (out.new.items ≡ out.old.items ++ written.name_bytes symbol.now) }
{
    out.extend_from_slice(symbol.name.as_slice())?;
    Ok(out.push(0)?)
}

/// The names of the symbols, one behind the other.
pub fn names(alloc: Global, symbols: &[Sym]) -> Result<Vec<u8>, Memory>
    ensures { IfOk result (λ v. v.items ≡ written.names_bytes symbols.now) }
{
    let mut out = Vec::new(alloc);
    out.push(0)?;
    for symbol in symbols {
        put_name(&mut out, symbol)?;
    }
    Ok(out)
}

/// The resource table and the symbols, whose names have this length together.
pub fn put_besides(out: &mut Vec<u8>, extra: &Extra) -> Result<(), Memory>
    requires { length (written.names_bytes extra.now.symbols) < 2 ^ 32 }
    ensures { OnOk result (out.new.items ≡ out.old.items ++ written.besides_bytes extra.now) }
{
    out.extend_from_slice(extra.table())?;
    out.extend_from_slice(&[0; 16])?;
    put_symbols(out, extra.symbols())
}

#[tactic(auto, unfolding(crate::specs::Written::section_names_bytes))]
fn put_section_names(out: &mut Vec<u8>) -> Result<(), Memory>
    ensures { OnOk result (out.new.items ≡ out.old.items ++ written.section_names_bytes) }
{
    put_filled(out, &SECTION_NAMES)
}

/// The symbols' names and the sections' names.
pub fn put_strings(out: &mut Vec<u8>, extra: &Extra, names: &[u8]) -> Result<(), Memory>
    requires names { names.now ≡ written.names_bytes extra.now.symbols }
    requires small { length names.now < 2 ^ 32 }
    ensures { OnOk result (out.new.items ≡ out.old.items ++ written.strings_bytes extra.now) }
{
    put_filled(out, names)?;
    put_section_names(out)
}
