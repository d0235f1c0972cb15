//! Ranges of bytes.

ghost use Rattle.std.specs.Prelude.{◌≡◌, ◌+◌, ◌≤◌, length};
ghost use Rattle.corestep.specs.Fields.{with_bytes, bytes_at};

/// Writes bytes from a place on.
pub fn put(list: &mut [u8], at: usize, bytes: &[u8])
    requires { at + length bytes.now ≤ length list.old }
    ensures { list.new ≡ with_bytes at bytes.now list.old }
{
    list[at..at + bytes.len()].copy_from_slice(bytes);
}

/// So many bytes, from a place on.
pub fn range(list: &[u8], at: usize, len: usize) -> &[u8]
    requires { at + len ≤ length list.now }
    ensures value { result.now ≡ bytes_at at len list.now }
    ensures size { length result.now ≡ len }
{
    &list[at..at + len]
}
