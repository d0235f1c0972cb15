ghost use Rattle.std.specs.Prelude.{◌≡◌, ◌++◌, OnOk};
ghost use Rattle.std.specs.String.{string_bytes};
ghost use Rattle.prucc.specs.Summary.{stop_text, line_of};

use crate::machine::Stop;
use crate::run::Outcome;
use prunum::Memory;
use std::fmt::Write;

fn stop_text(stop: Stop) -> &'static str
    ensures { result.now ≡ stop_text stop }
{
    match stop {
        Stop::Going => "running",
        Stop::Halted => "halted",
        Stop::Stuck => "stuck",
    }
}

/// Puts a core's line behind the text.
pub fn push_core_line(text: &mut String, core: u8, outcome: &Outcome) -> Result<(), Memory>
    ensures { OnOk result (string_bytes text.new ≡ string_bytes text.old ++ line_of core outcome.now) }
{
    let events = outcome.trace.len();
    let instructions = outcome.count;
    let stop = stop_text(outcome.stop);
    writeln!(
        text,
        "core {core} events {events} instructions {instructions} spills 0 {stop} clean"
    )?;
    Ok(())
}
