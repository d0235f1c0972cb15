//! Numbers and bytes, put behind what was written.

ghost use Rattle.std.specs.Prelude.{◌≡◌, ◌<◌, ◌^◌, ◌++◌, length, replicate, OnOk};
ghost use Rattle.std.specs.Int.{w16, w32};
ghost use Rattle.pruelf.specs.Layout as layout;
ghost use Rattle.elfwrite.specs.Written as written;

use pruelf::padding;
use prunum::Memory;

/// Puts the low four bytes of each number behind `out`.
pub fn put_words(out: &mut Vec<u8>, values: &[u64]) -> Result<(), Memory>
    ensures { OnOk result (out.new.items ≡ out.old.items ++ written.numbers w32 values.now) }
{
    for value in values {
        out.extend_from_slice(&value.to_le_bytes()[..4])?;
    }
    Ok(())
}

/// Puts the low two bytes of each number behind `out`.
pub fn put_halves(out: &mut Vec<u8>, values: &[u64]) -> Result<(), Memory>
    ensures { OnOk result (out.new.items ≡ out.old.items ++ written.numbers w16 values.now) }
{
    for value in values {
        out.extend_from_slice(&value.to_le_bytes()[..2])?;
    }
    Ok(())
}

pub fn put_code(out: &mut Vec<u8>, words: &[u32]) -> Result<(), Memory>
    ensures { OnOk result (out.new.items ≡ out.old.items ++ written.numbers w32 words.now) }
{
    for word in words {
        out.extend_from_slice(&word.to_le_bytes())?;
    }
    Ok(())
}

/// Fills a part of this length to a multiple of 4.
fn put_padding(out: &mut Vec<u8>, length: u32) -> Result<(), Memory>
    ensures { OnOk result (out.new.items ≡ out.old.items ++ replicate (layout.padding length) 0) }
{
    let count = padding(length);
    if count == 1 {
        return Ok(out.push(0)?);
    }
    if count == 2 {
        return Ok(out.extend_from_slice(&[0, 0])?);
    }
    if count == 3 {
        return Ok(out.extend_from_slice(&[0, 0, 0])?);
    }
    Ok(())
}

pub fn put_filled(out: &mut Vec<u8>, bytes: &[u8]) -> Result<(), Memory>
    requires { length bytes.now < 2 ^ 32 }
    ensures { OnOk result (out.new.items ≡ out.old.items ++ written.filled bytes.now) }
{
    out.extend_from_slice(bytes)?;
    put_padding(out, bytes.len() as u32)
}
