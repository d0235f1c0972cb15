ghost use Rattle.std.specs.Prelude.{◌≡◌, ◌++◌, OnOk};
ghost use Rattle.std.specs.String.{string_bytes};
ghost use Rattle.simrun.specs.Texts.{stop_text, core_line};

use corestep::Stop;
use prunum::Memory;
use std::fmt::Write;

fn stop_text(stop: Stop) -> &'static str
    ensures { result.now ≡ stop_text stop }
{
    match stop {
        Stop::Going => "running",
        Stop::Halted => "halted",
        Stop::Stuck => "stuck",
    }
}

/// Puts a core's line behind the text.
pub fn push_core_line(
    text: &mut String,
    core: u8,
    events: usize,
    instructions: u32,
    stop: Stop,
) -> Result<(), Memory>
    ensures { OnOk result (string_bytes text.new ≡ string_bytes text.old ++ core_line core events instructions stop) }
{
    let stop = stop_text(stop);
    writeln!(
        text,
        "core {core} events {events} instructions {instructions} {stop}"
    )?;
    Ok(())
}
