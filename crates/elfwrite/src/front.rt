//! The header and the program headers.

ghost use Rattle.std.specs.Prelude.{◌≡◌, ◌++◌, OnOk};
ghost use Rattle.elfwrite.specs.Written as written;

use crate::bytes::{put_halves, put_words};
use pruelf::{IDENTIFICATION, Plan};
use prunum::Memory;

fn put_header(out: &mut Vec<u8>, p: &Plan) -> Result<(), Memory>
    ensures { OnOk result (out.new.items ≡ out.old.items ++ written.header_bytes p.now) }
{
    out.extend_from_slice(&IDENTIFICATION)?;
    put_halves(out, &[2, 144])?;
    put_words(out, &[1, 0, 52, u64::from(p.sections_at), 0])?;
    put_halves(out, &[52, 32, 2, 40, 9, 8])
}

fn put_segments(out: &mut Vec<u8>, p: &Plan) -> Result<(), Memory>
    ensures { OnOk result (out.new.items ≡ out.old.items ++ written.segments_bytes p.now) }
{
    let code = u64::from(p.code);
    let data_at = u64::from(p.data_at);
    let init = u64::from(p.init);
    let memory = u64::from(p.memory);
    put_words(out, &[1, 116, 0, 0, code, code, 5, 4])?;
    put_words(out, &[1, 116 + code, data_at, data_at, init, memory, 6, 4])
}

#[tactic(auto, unfolding(crate::specs::Written::front_bytes))]
pub fn put_front(out: &mut Vec<u8>, p: &Plan) -> Result<(), Memory>
    ensures { OnOk result (out.new.items ≡ out.old.items ++ written.front_bytes p.now) }
{
    put_header(out, p)?;
    put_segments(out, p)
}
