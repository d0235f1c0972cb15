ghost use Rattle.std.specs.Prelude.{◌≡◌, ◌-◌, ◌<◌, ◌≤◌, ◌^◌, IfOk};
ghost use Rattle.pruelf.specs.Fields.{Gives};
ghost use Rattle.pruelf.specs.Front.{header_in, identified_in};

use crate::fault::{LoadCause, LoadFault};
use crate::fields::{bytes, fixed, within, wrong};
use crate::spans::sections_span;
use prunum::Width;

/// A 32-bit little-endian ELF file of version 1.
pub const IDENTIFICATION: [u8; 16] = [0x7f, b'E', b'L', b'F', 1, 1, 1, 0, 0, 0, 0, 0, 0, 0, 0, 0];

#[tactic(auto, unfolding(crate::specs::Front::identified_in))]
fn identification(end: usize, file: &[u8]) -> Result<&[u8], LoadFault>
    requires { end < 2 ^ 31 }
    ensures { Gives (λ x. x.now) result (identified_in end file.now) }
{
    let (front, rest) = bytes(16, end, file)?;
    if front != IDENTIFICATION.as_slice() {
        return Err(wrong(LoadCause::Header, end, file));
    }
    Ok(rest)
}

/// The header: where the section headers stand.
#[tactic(auto, unfolding(crate::specs::Front::header_in))]
pub fn header(end: usize, file: &[u8]) -> Result<(u32, &[u8]), LoadFault>
    requires { end < 2 ^ 31 }
    ensures value { Gives (λ x. (x.0, x.1.now)) result (header_in end file.now) }
    ensures within { IfOk result (λ x. x.0 ≤ 2 ^ 31 - 361) }
{
    let cause = LoadCause::Header;
    let rest = identification(end, file)?;
    let rest = fixed(cause, Width::B2, &[2, 144], end, rest)?;
    let rest = fixed(cause, Width::B4, &[1, 0, 52], end, rest)?;
    let (sections_at, rest) = within(cause, sections_span(), end, rest)?;
    let rest = fixed(cause, Width::B4, &[0], end, rest)?;
    let rest = fixed(cause, Width::B2, &[52, 32, 2, 40, 9, 8], end, rest)?;
    Ok((sections_at, rest))
}
