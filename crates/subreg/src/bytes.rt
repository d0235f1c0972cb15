//! The bytes of the registers, each with the first place from which on nothing that was put there is needed.

ghost use Rattle.std.specs.Prelude.{◌≡◌, ℕ, ◌+◌, ◌<◌, ◌≤◌, length, slice_index, MatchBool, MatchOption};
ghost use Rattle.prunum.specs.Width.{byte_count};
ghost use Rattle.subreg.specs.Bytes.{AreFree, IsHeld, AreTaken, IsFreeField, AreHeld, IsGiven};

use crate::home::{Home, Interval};
use callconv::field_at;
use prunum::{Width, bytes};

/// The number of bytes in R0 to R25.
pub(crate) const BYTES: usize = 104;

/// The first byte of R5.
pub(crate) const FIRST: usize = 20;

/// The bytes before any span has a home.
pub(crate) fn none_taken() -> [u32; BYTES]
    ensures size { length result ≡ BYTES }
    ensures free { (byte : ℕ) → slice_index result byte ≡ 0 }
{
    [0; BYTES]
}

/// Whether nothing is needed at a place in so many bytes.
fn are_free(free_from: &[u32], first: usize, size: usize, place: u32) -> bool
    requires within { first + size ≤ length free_from.now }
    ensures { MatchBool result (AreFree free_from.now first size place) (IsHeld free_from.now first size place) }
{
    for byte in first..first + size {
        if free_from[byte] > place {
            return false;
        }
    }
    true
}

/// The first byte of an aligned field of this width in which nothing is needed at a place.
fn free_field(free_from: &[u32], width: Width, place: u32) -> Option<usize>
    requires { length free_from.now ≡ BYTES }
    ensures { MatchOption result (AreHeld free_from.now width place) (IsFreeField free_from.now width place) }
{
    let size = bytes(width) as usize;
    for first in FIRST..BYTES {
        if first % size == 0 && are_free(free_from, first, size, place) {
            return Some(first);
        }
    }
    None
}

/// Takes so many bytes before a place.
fn take_bytes(free_from: &mut [u32], first: usize, size: usize, until: u32)
    requires within { first + size ≤ length free_from.old }
    ensures { AreTaken free_from.old free_from.new first size until }
{
    for byte in first..first + size {
        free_from[byte] = until;
    }
}

/// A home for a span, and the bytes that it takes. `slots` is the number of slots that were given.
pub(crate) fn give_home(free_from: &mut [u32], width: Width, span: Interval, slots: u32) -> Home
    requires length { length free_from.old ≡ BYTES }
    requires small { span.to < 1048576 }
    ensures { IsGiven free_from.old free_from.new width span slots result }
{
    match free_field(free_from, width, span.from) {
        Some(first) => {
            take_bytes(free_from, first, bytes(width) as usize, span.to + 1);
            Home::Field(field_at(width, first as u8))
        }
        None => Home::Slot(slots),
    }
}
