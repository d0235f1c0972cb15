ghost use Rattle.std.specs.Prelude.{◌≡◌, ◌==◌, ◌+◌, ◌*◌, ◌<◌, ◌≤◌, ◌^◌, ℕ, List, length, IfOk, Ok};
ghost use Rattle.std.specs.List.{AllByRecursion, list_all};
ghost use Rattle.restable.specs.declared.trace.Trace.{Trace};
ghost use Rattle.restable.specs.Tables.{IsTrace, table};
ghost use Rattle.restable.specs.Reading.{Gives, word_at, fixed_at, name_len, name_at, entry_at, offsets_at, entries_at, table_in};

use crate::fault::TableFault;
use crate::name::Name;
use crate::trace::Trace;
use std::alloc::Global;

/// Reads a table. A fault is the first field that is not of its form, the end where the bytes end
/// too early, or the first byte behind the table; a name with the zeros that fill it is one field.
pub fn read(alloc: Global, bytes: &[u8]) -> Result<Vec<Trace>, TableFault>
    requires { length bytes.now < 2 ^ 31 }
    // What is read is what stands there.
    ensures found { IfOk result (λ traces. bytes.now ≡ table traces.items) }
    // What is a table is read, unless memory runs out.
    ensures only { (traces : List Trace) → AllByRecursion IsTrace traces → bytes.now ≡ table traces
        → Gives (λ v. v.items) result (Ok traces) }
    // Which fault it is.
    ensures exact { Gives (λ v. v.items) result (table_in bytes.now) }
{
    read_table(alloc, bytes)
}

#[tactic(auto, unfolding(crate::specs::Reading::table_in))]
fn read_table(alloc: Global, bytes: &[u8]) -> Result<Vec<Trace>, TableFault>
    requires { length bytes.now < 2 ^ 31 }
    ensures { Gives (λ v. v.items) result (table_in bytes.now) }
{
    let rest = fixed(1, 0, bytes)?;
    let (count, rest) = word(4, rest)?;
    let rest = fixed(0, 8, rest)?;
    let rest = fixed(0, 12, rest)?;
    let first = 16 + 4 * u64::from(count);
    let rest = fixed_offsets(count, first, rest)?;
    let at = first as u32;
    let (traces, rest) = read_entries(alloc, count, at, rest)?;
    if !rest.is_empty() {
        return Err(TableFault::At {
            offset: at + 48 * count,
        });
    }
    Ok(traces)
}

fn word(at: u32, bytes: &[u8]) -> Result<(u32, &[u8]), TableFault>
    requires { at + length bytes.now < 2 ^ 31 }
    ensures value { Gives (λ x. (x.0, x.1.now)) result (word_at at bytes.now) }
    ensures len { IfOk result (λ x. length x.1.now + 4 ≡ length bytes.now) }
{
    if bytes.len() < 4 {
        return Err(TableFault::At {
            offset: at + bytes.len() as u32,
        });
    }
    let (front, rest) = bytes.split_at(4);
    let number = u32::from_le_bytes([front[0], front[1], front[2], front[3]]);
    Ok((number, rest))
}

/// A word of which there is one value.
#[tactic(auto, unfolding(crate::specs::Reading::fixed_at))]
fn fixed(value: u64, at: u32, bytes: &[u8]) -> Result<&[u8], TableFault>
    requires { at + length bytes.now < 2 ^ 31 }
    ensures value { Gives (λ x. x.now) result (fixed_at value at bytes.now) }
    ensures len { IfOk result (λ x. length x.now + 4 ≡ length bytes.now) }
{
    let (number, rest) = word(at, bytes)?;
    if u64::from(number) != value {
        return Err(TableFault::At { offset: at });
    }
    Ok(rest)
}

/// So many offsets, of which the first has this value and stands at byte 16.
fn fixed_offsets(count: u32, first: u64, bytes: &[u8]) -> Result<&[u8], TableFault>
    requires first { first ≤ 16 + 4 * count }
    requires room { 16 + length bytes.now < 2 ^ 31 }
    ensures value { Gives (λ x. x.now) result (offsets_at count first 16 bytes.now) }
    ensures len { IfOk result (λ x. length x.now + 4 * count ≡ length bytes.now) }
{
    let mut rest = bytes;
    let mut value = first;
    let mut at = 16u32;
    'offsets: for _ in 0..count {
        rest = fixed(value, at, rest)?;
        value += 48;
        at += 4;
    }
    Ok(rest)
}

fn read_entries(
    alloc: Global,
    count: u32,
    first: u32,
    bytes: &[u8],
) -> Result<(Vec<Trace>, &[u8]), TableFault>
    requires { first + length bytes.now < 2 ^ 31 }
    ensures value { Gives (λ x. (x.0.items, x.1.now)) result (entries_at count first bytes.now) }
    ensures len { IfOk result (λ x. length x.1.now + 48 * count ≡ length bytes.now) }
{
    let mut traces = Vec::new(alloc);
    let mut rest = bytes;
    let mut at = first;
    'entries: for _ in 0..count {
        let (trace, behind) = read_entry(alloc, at, rest)?;
        traces.push(trace)?;
        rest = behind;
        at += 48;
    }
    Ok((traces, rest))
}

#[tactic(auto, unfolding(crate::specs::Reading::entry_at))]
fn read_entry(alloc: Global, at: u32, bytes: &[u8]) -> Result<(Trace, &[u8]), TableFault>
    requires { at + length bytes.now < 2 ^ 31 }
    ensures value { Gives (λ x. (x.0, x.1.now)) result (entry_at at bytes.now) }
    ensures len { IfOk result (λ x. length x.1.now + 48 ≡ length bytes.now) }
{
    let rest = fixed(2, at, bytes)?;
    let (addr, rest) = word(at + 4, rest)?;
    let (len, rest) = word(at + 8, rest)?;
    let rest = fixed(0, at + 12, rest)?;
    let (name, rest) = read_name(alloc, at + 16, rest)?;
    Ok((Trace { name, addr, len }, rest))
}

#[tactic(auto, unfolding(crate::specs::Reading::name_at))]
fn read_name(alloc: Global, at: u32, bytes: &[u8]) -> Result<(Name, &[u8]), TableFault>
    requires { at + length bytes.now < 2 ^ 31 }
    ensures value { Gives (λ x. (x.0, x.1.now)) result (name_at at bytes.now) }
    ensures len { IfOk result (λ x. length x.1.now + 32 ≡ length bytes.now) }
{
    if bytes.len() < 32 {
        return Err(TableFault::At {
            offset: at + bytes.len() as u32,
        });
    }
    let (field, rest) = bytes.split_at(32);
    let (name, filling) = field.split_at(len_of_name(field));
    if !is_zero(filling) {
        return Err(TableFault::At { offset: at });
    }
    Ok((Name::from_vec(Vec::from_slice(alloc, name)?), rest))
}

/// How many bytes stand before the first zero.
fn len_of_name(field: &[u8]) -> usize
    ensures value { result ≡ name_len field.now }
    ensures within { result ≤ length field.now }
{
    for (i, b) in field.iter().enumerate() {
        if *b == 0 {
            return i;
        }
    }
    field.len()
}

fn is_zero(bytes: &[u8]) -> bool
    ensures { result ≡ list_all (λ b. b == 0) bytes.now }
{
    for b in bytes {
        if *b != 0 {
            return false;
        }
    }
    true
}
