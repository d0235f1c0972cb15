ghost use Rattle.std.specs.Prelude.{◌≡◌, ◌<◌, ◌≤◌, ◌^◌, IfOk};
ghost use Rattle.pruelf.specs.Fields.{Gives};
ghost use Rattle.pruelf.specs.Front.{code_in, segments_in};

use crate::fault::{LoadCause, LoadFault};
use crate::fields::{fixed, within};
use crate::spans::{code_span, data_at_span, init_span, memory_span};
use prunum::Width;

/// What the program headers tell, in bytes.
#[derive(Clone, Copy, Debug)]
pub struct LoadSizes {
    /// The code.
    pub code: u32,
    /// Where the data goes in the core's own RAM.
    pub data_at: u32,
    /// The data's bytes in the file.
    pub init: u32,
    /// These, with the zero part behind them.
    pub memory: u32,
}

/// The first program header: how long the code is.
#[tactic(auto, unfolding(crate::specs::Front::code_in))]
fn code(sections_at: u32, end: usize, bytes: &[u8]) -> Result<(u32, &[u8]), LoadFault>
    requires { end < 2 ^ 31 }
    ensures { Gives (λ x. (x.0, x.1.now)) result (code_in sections_at end bytes.now) }
{
    let cause = LoadCause::Segment;
    let rest = fixed(cause, Width::B4, &[1, 116, 0, 0], end, bytes)?;
    let (code, rest) = within(cause, code_span(sections_at), end, rest)?;
    let rest = fixed(cause, Width::B4, &[u64::from(code), 5, 4], end, rest)?;
    Ok((code, rest))
}

/// Both program headers.
#[tactic(auto, unfolding(crate::specs::Front::segments_in))]
pub fn segments(sections_at: u32, end: usize, bytes: &[u8]) -> Result<(LoadSizes, &[u8]), LoadFault>
    requires { end < 2 ^ 31 }
    ensures value { Gives (λ x. (x.0, x.1.now)) result (segments_in sections_at end bytes.now) }
{
    let cause = LoadCause::Segment;
    let (code, rest) = code(sections_at, end, bytes)?;
    let rest = fixed(cause, Width::B4, &[1, 116 + u64::from(code)], end, rest)?;
    let (data_at, rest) = within(cause, data_at_span(), end, rest)?;
    let rest = fixed(cause, Width::B4, &[u64::from(data_at)], end, rest)?;
    let (init, rest) = within(cause, init_span(sections_at, code, data_at), end, rest)?;
    let (memory, rest) = within(cause, memory_span(data_at, init), end, rest)?;
    let rest = fixed(cause, Width::B4, &[6, 4], end, rest)?;
    let segments = LoadSizes {
        code,
        data_at,
        init,
        memory,
    };
    Ok((segments, rest))
}
