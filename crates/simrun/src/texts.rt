ghost use Rattle.std.specs.Prelude.{◌≡◌, IfOk};
ghost use Rattle.std.specs.String.{string_bytes};
ghost use Rattle.simrun.specs.Texts.{AreTexts, summary_text};

use crate::summary::push_core_line;
use prunum::Memory;
use prutrace::{print_events, print_trace};
use std::alloc::Global;
use twocore::Outcome;

/// What a run leaves: the file of its events, the file of its traces, and a line for each core.
#[derive(Debug, Drop)]
pub struct Texts {
    pub events: Vec<u8>,
    pub trace: Vec<u8>,
    pub summary: String,
}

/// The line of core 0, and that of core 1 behind it.
fn both_lines(alloc: Global, outcome: &Outcome) -> Result<String, Memory>
    ensures { IfOk result (λ text. string_bytes text ≡ summary_text outcome.now) }
{
    let mut text = String::new(alloc);
    push_core_line(
        &mut text,
        0,
        outcome.trace0.as_slice().len(),
        outcome.count0,
        outcome.stop0,
    )?;
    push_core_line(
        &mut text,
        1,
        outcome.trace1.as_slice().len(),
        outcome.count1,
        outcome.stop1,
    )?;
    Ok(text)
}

/// The texts of what both cores have shown.
pub fn texts_of(alloc: Global, outcome: &Outcome) -> Result<Texts, Memory>
    ensures { IfOk result (AreTexts outcome.now) }
{
    let zero = outcome.trace0.as_slice();
    let one = outcome.trace1.as_slice();
    let events = print_events(alloc, zero, one)?;
    let trace = print_trace(alloc, zero, one)?;
    let summary = both_lines(alloc, outcome)?;
    Ok(Texts {
        events,
        trace,
        summary,
    })
}
