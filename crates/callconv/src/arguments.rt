ghost use Rattle.std.specs.Prelude.{◌≡◌, ◌+◌, ◌*◌, ◌/◌, ◌%◌, ◌<◌, ◌≤◌, take};
ghost use Rattle.prunum.specs.Width.{byte_count};
ghost use Rattle.midcode.specs.Operation.{parameters};
ghost use Rattle.callconv.specs.Places.{IsAligned, IsPlaces, Ascend, next_place, part_first, part_size};

use isa::{Field, Part};
use midcode::Signature;
use prunum::{Width, bytes};

/// Where the arguments of a call stand: the first `count` of these fields, in order.
#[derive(Clone, Copy)]
pub struct ArgPlaces {
    pub fields: [Field; 8],
    pub count: u8,
}

/// The next byte of the registers at which a number of this width may begin.
fn next_place(at: u8, width: Width) -> u8
    requires { at < 200 }
    ensures value { result ≡ next_place at width }
    ensures aligned { result % byte_count width ≡ 0 }
    ensures bound { result ≤ (at + 3) / 4 * 4 }
{
    match width {
        Width::B1 => at,
        Width::B2 => (at + 1) / 2 * 2,
        Width::B4 => (at + 3) / 4 * 4,
    }
}

fn byte_part(byte: u8) -> Part
    requires { byte < 4 }
    ensures first { part_first result ≡ byte }
    ensures size { part_size result ≡ 1 }
{
    match byte {
        0 => Part::B0,
        1 => Part::B1,
        2 => Part::B2,
        _ => Part::B3,
    }
}

fn word_part(byte: u8) -> Part
    requires within { byte < 4 }
    requires even { byte % 2 ≡ 0 }
    ensures first { part_first result ≡ byte }
    ensures size { part_size result ≡ 2 }
{
    if byte == 0 { Part::W0 } else { Part::W2 }
}

/// The field of this width that begins at a byte of R0 to R30.
pub fn field_at(width: Width, first: u8) -> Field
    requires within { first < 124 }
    requires aligned { first % byte_count width ≡ 0 }
    ensures { IsAligned result (byte_count width) first }
{
    let reg = first / 4;
    let part = match width {
        Width::B1 => byte_part(first % 4),
        Width::B2 => word_part(first % 4),
        Width::B4 => Part::All,
    };
    Field { reg, part }
}

/// The places of a function's arguments. They lie in R14 to R21, and no two share a byte.
pub fn places(signature: &Signature) -> ArgPlaces
    ensures count { result.count ≡ signature.now.count }
    ensures places { IsPlaces (parameters signature.now) (take result.count result.fields) }

    // They are in R14 to R21, one behind the other.
    ensures apart { Ascend 56 (take result.count result.fields) 88 }
{
    let mut fields = [Field {
        reg: 14,
        part: Part::All,
    }; 8];
    let mut at = 56;
    for i in 0..signature.count as usize {
        let width = signature.params[i];
        let first = next_place(at, width);
        fields[i] = field_at(width, first);
        at = first + bytes(width) as u8;
    }
    ArgPlaces {
        fields,
        count: signature.count,
    }
}
