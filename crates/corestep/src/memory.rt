//! Accesses to memory.

ghost use Rattle.std.specs.Prelude.{◌≡◌, ◌+◌, ◌≤◌, ◌<◌, ◌↔◌, IsTrue, length};
ghost use Rattle.corestep.specs.Memory as spec;
ghost use Rattle.corestep.specs.Fields.{with_bytes};

use crate::bytes::put;

/// How many bytes the part of a core's RAM has that nobody else reads or writes.
pub const PRIVATE_BYTES: u32 = 0x1e00;

/// Whether all bytes of an access are in that part.
pub fn is_private(addr: u32, len: usize) -> bool
    requires { len < 256 }
    ensures { result ≡ spec.is_private addr len }
{
    addr as usize + len <= 0x1e00
}

/// Writes what reaches the private part of a store that isn't private.
pub fn put_private(ram: &mut [u8], addr: u32, bytes: &[u8])
    requires size { length ram.old ≡ 0x1E00 }
    requires out { 0x1E00 < addr + length bytes.now }
    ensures { ram.new ≡ spec.ram_after ram.old addr bytes.now }
{
    if addr < PRIVATE_BYTES {
        let at = addr as usize;
        put(ram, at, &bytes[..0x1e00 - at]);
    }
}
