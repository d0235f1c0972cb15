ghost use Rattle.std.specs.Prelude.{◌≡◌, ◌++◌, [], IfOk, OnOk};
ghost use Rattle.std.specs.String.{string_bytes};
ghost use Rattle.prutrace.specs.Text.{core_text, events_text, events_of, core_trace_text, trace_text};

use crate::event::Stamped;
use prunum::Memory;
use std::alloc::Global;
use std::fmt::Write;

// Puts the line that names a core behind the text.
fn push_head(text: &mut String, core: u8) -> Result<(), Memory>
    ensures { OnOk result (string_bytes text.new ≡ string_bytes text.old ++ core_text core []) }
{
    writeln!(text, "core {core}")?;
    Ok(())
}

// Puts one core's events behind the text.
fn push_core(text: &mut String, core: u8, trace: &[Stamped]) -> Result<(), Memory>
    ensures { OnOk result (string_bytes text.new ≡ string_bytes text.old ++ core_text core (events_of trace.now)) }
{
    push_head(text, core)?;
    for stamped in trace {
        writeln!(text, "{}", stamped.event)?;
    }
    Ok(())
}

/// The text of both cores' events, without their cycles.
pub fn print_events(alloc: Global, zero: &[Stamped], one: &[Stamped]) -> Result<Vec<u8>, Memory>
    ensures { IfOk result (λ text. text.items ≡ events_text (events_of zero.now) (events_of one.now)) }
{
    let mut text = String::new(alloc);
    push_core(&mut text, 0, zero)?;
    push_core(&mut text, 1, one)?;
    Ok(text.into_bytes())
}

// Puts one core's trace behind the text.
fn push_trace(text: &mut String, core: u8, trace: &[Stamped]) -> Result<(), Memory>
    ensures { OnOk result (string_bytes text.new ≡ string_bytes text.old ++ core_trace_text core trace.now) }
{
    push_head(text, core)?;
    for stamped in trace {
        writeln!(text, "{stamped}")?;
    }
    Ok(())
}

/// The text of both cores' traces: events with their cycles.
pub fn print_trace(alloc: Global, zero: &[Stamped], one: &[Stamped]) -> Result<Vec<u8>, Memory>
    ensures { IfOk result (λ text. text.items ≡ trace_text zero.now one.now) }
{
    let mut text = String::new(alloc);
    push_trace(&mut text, 0, zero)?;
    push_trace(&mut text, 1, one)?;
    Ok(text.into_bytes())
}
