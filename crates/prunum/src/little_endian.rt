//! Numbers as bytes, the lowest first.

ghost use Rattle.std.specs.Prelude.{◌≡◌, ◌+◌, ◌≤◌, ◌++◌, length, OnOk};
ghost use Rattle.std.specs.Int.{w16, w32, to_le_bytes};
ghost use Rattle.std.specs.List.{flat_map};
ghost use Rattle.prunum.specs.Width.{byte_count};
ghost use Rattle.prunum.specs.Number.{wrap};
ghost use Rattle.prunum.specs.Bytes.{little_bytes, little_number, IsByteCount, number_at};

use crate::memory::Memory;
use crate::width::Width;
use byteorder::{ByteOrder, LittleEndian};

/// Writes the low bytes of `v`, the lowest first.
pub fn low_bytes(w: Width, v: u32, out: &mut [u8])
    requires { length out.old ≡ byte_count w }
    ensures value { out.new ≡ little_bytes (byte_count w) v }

    // They are read as what the number leaves at the width.
    ensures again { little_number (byte_count w) out.new ≡ wrap w v }
{
    match w {
        Width::B1 => out[0] = (v % 256) as u8,
        Width::B2 => LittleEndian::write_u16(out, (v % (1 << 16)) as u16),
        Width::B4 => LittleEndian::write_u32(out, v),
    }
}

/// The number whose bytes these are, the lowest first.
pub fn from_bytes(b: &[u8]) -> u32
    requires { IsByteCount (length b.now) }
    ensures value { result ≡ little_number (length b.now) b.now }

    // The bytes written from a number that was read are the bytes read.
    ensures again { little_bytes (length b.now) result ≡ b.now }
{
    match b.len() {
        1 => u32::from(b[0]),
        2 => u32::from(LittleEndian::read_u16(b)),
        _ => LittleEndian::read_u32(b),
    }
}

/// The two bytes at `at` as a number, the lowest first.
pub fn u16_at(bytes: &[u8], at: usize) -> u16
    requires { at + 2 ≤ length bytes.now }
    ensures { result ≡ number_at w16 at bytes.now }
{
    let field = &bytes[at..at + 2];
    u16::from_le_bytes([field[0], field[1]])
}

/// The four bytes at `at` as a number, the lowest first.
pub fn u32_at(bytes: &[u8], at: usize) -> u32
    requires { at + 4 ≤ length bytes.now }
    ensures { result ≡ number_at w32 at bytes.now }
{
    let field = &bytes[at..at + 4];
    u32::from_le_bytes([field[0], field[1], field[2], field[3]])
}

/// Puts the numbers behind `out`, two bytes each, the lowest first. Where memory is wanting, only some of them may stand there.
pub fn append_halves(out: &mut Vec<u8>, halves: &[u16]) -> Result<(), Memory>
    ensures { OnOk result (out.new.items ≡ out.old.items ++ flat_map (to_le_bytes w16) halves.now) }
{
    for half in halves {
        out.extend_from_slice(&half.to_le_bytes())?;
    }
    Ok(())
}

/// Puts the numbers behind `out`, four bytes each, the lowest first. Where memory is wanting, only some of them may stand there.
pub fn append_words(out: &mut Vec<u8>, words: &[u32]) -> Result<(), Memory>
    ensures { OnOk result (out.new.items ≡ out.old.items ++ flat_map (to_le_bytes w32) words.now) }
{
    for word in words {
        out.extend_from_slice(&word.to_le_bytes())?;
    }
    Ok(())
}

#[cfg(test)]
mod tests {
    use super::*;

    #[test]
    fn lowest_first(rt: HostRuntime) {
        let mut out = [0u8; 4];
        low_bytes(Width::B4, 0x0403_0201, &mut out);
        assert_eq!(rt; out, [1, 2, 3, 4]);
        low_bytes(Width::B2, 0x0403_0201, &mut out[2..]);
        assert_eq!(rt; out, [1, 2, 1, 2]);
        low_bytes(Width::B1, 0x0403_02ff, &mut out[3..]);
        assert_eq!(rt; from_bytes(&out), 0xff01_0201);
        assert_eq!(rt; from_bytes(&out[2..]), 0xff01);
        assert_eq!(rt; from_bytes(&out[3..]), 0xff);
    }

    #[test]
    fn behind_one_another(rt: HostRuntime) -> Result<(), Memory> {
        let mut out = Vec::new(rt.alloc());
        append_halves(&mut out, &[0x0201, 0xff03])?;
        append_words(&mut out, &[0x8765_4321])?;
        assert_eq!(rt;
            out.as_slice(),
            [1, 2, 3, 0xff, 0x21, 0x43, 0x65, 0x87].as_slice()
        );
        assert_eq!(rt; u16_at(&out, 1), 0x0302);
        assert_eq!(rt; u32_at(&out, 4), 0x8765_4321);
        Ok(())
    }
}
