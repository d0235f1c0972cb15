ghost use Rattle.std.specs.Prelude.{◌≡◌, ◌+◌, ◌<◌, ◌≤◌, ◌*◌, ◌^◌, ◌++◌, length, IfOk, OnOk};
ghost use Rattle.std.specs.Int.{w32, to_le_bytes};
ghost use Rattle.std.specs.List.{flat_map};
ghost use Rattle.restable.specs.Tables.{offsets, words, entry, name_field, table};

use crate::trace::Trace;
use prunum::Memory;
use std::alloc::{AllocError, Global};

/// The table of the traces, in their order: 16 bytes and 52 for each.
pub fn build(alloc: Global, entries: &[Trace]) -> Result<Vec<u8>, Memory>
    requires { length entries.now ≤ 1000000 }
    ensures { IfOk result (λ bytes. bytes.items ≡ table entries.now) }
{
    let mut out = Vec::new(alloc);
    let count = entries.len() as u32;
    put_words(&mut out, &[1, count, 0, 0])?;
    put_offsets(&mut out, 16 + 4 * count, count)?;
    put_entries(&mut out, entries)?;
    Ok(out)
}

fn put_word(out: &mut Vec<u8>, word: u32) -> Result<(), AllocError>
    ensures { OnOk result (out.new.items ≡ out.old.items ++ to_le_bytes w32 word) }
{
    out.extend_from_slice(&word.to_le_bytes())
}

fn put_words(out: &mut Vec<u8>, numbers: &[u32]) -> Result<(), AllocError>
    ensures { OnOk result (out.new.items ≡ out.old.items ++ words numbers.now) }
{
    for number in numbers {
        put_word(out, *number)?;
    }
    Ok(())
}

/// The offsets of so many entries, of which the first begins here.
fn put_offsets(out: &mut Vec<u8>, first: u32, count: u32) -> Result<(), AllocError>
    requires { first + 48 * count < 2 ^ 32 }
    ensures { OnOk result (out.new.items ≡ out.old.items ++ words (offsets first count)) }
{
    let mut next = first;
    'offsets: for _ in 0..count {
        put_word(out, next)?;
        next += 48;
    }
    Ok(())
}

fn put_entries(out: &mut Vec<u8>, entries: &[Trace]) -> Result<(), AllocError>
    ensures { OnOk result (out.new.items ≡ out.old.items ++ flat_map entry entries.now) }
{
    for trace in entries {
        put_entry(out, trace)?;
    }
    Ok(())
}

fn put_entry(out: &mut Vec<u8>, trace: &Trace) -> Result<(), AllocError>
    ensures { OnOk result (out.new.items ≡ out.old.items ++ entry trace.now) }
{
    put_words(out, &[2, trace.addr, trace.len, 0])?;
    put_name(out, trace.name.as_slice())
}

/// A name in 32 bytes, filled with zeros.
fn put_name(out: &mut Vec<u8>, name: &[u8]) -> Result<(), AllocError>
    requires { length name.now ≤ 32 }
    ensures { OnOk result (out.new.items ≡ out.old.items ++ name_field name.now) }
{
    out.extend_from_slice(name)?;
    for _ in name.len()..32 {
        out.push(0)?;
    }
    Ok(())
}
