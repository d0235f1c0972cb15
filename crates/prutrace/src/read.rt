//! Event files.

ghost use Rattle.std.specs.Prelude.{◌≡◌, ◌↔◌, ◌+◌, ◌<◌, ◌^◌, ◌∷◌, ◌++◌, List, length, IsTrue, IfOk, OnOk, IfErr};
ghost use Rattle.textline.specs.Lines.{Lacks};
ghost use Rattle.prutrace.specs.declared.event.Event.{Event};
ghost use Rattle.prutrace.specs.Reading.{AllFit, IsEventsFile, AreRead, IsFaultOf, Gives, head, events_of_core};
ghost use Rattle.prutrace.specs.declared.fault.EventsFault.TheVariants.{Memory};
ghost use Rattle.prutrace.specs.Sections.{IsSection, StopsAtEnd, StopsAtLine, told, FailsHead, FailsZero, FailsOne};

use crate::event::Event;
use crate::fault::EventsFault;
use crate::line::read_event;
use std::alloc::Global;
use textline::Lines;

/// What stands behind the events of a core.
#[derive(Clone, Copy)]
enum Stop {
    /// The line that names core 1.
    Head,
    /// Nothing.
    End,
    /// A line that is neither this nor an event's, or one without its end.
    Other,
}

/// The events up to the first line that tells none, and the number of that line.
#[derive(Drop)]
struct Section {
    events: Vec<Event>,
    number: u32,
    stop: Stop,
}

/// Reads an event file: the events of the core, 0 or 1. A fault is the first line that no event file has behind the lines
/// before it; each line has its end.
pub fn read_events(alloc: Global, bytes: &[u8], core: u8) -> Result<Vec<Event>, EventsFault>
    requires few { length bytes.now < 2 ^ 31 }
    requires core { core < 2 }
    // What is read is what stands there.
    ensures found { IfOk result (λ events. AreRead bytes.now core events.items) }
    // What is an event file is read, unless memory runs out.
    ensures only { (zero one : List Event) → IsEventsFile bytes.now zero one → Gives (λ v. v.items) (events_of_core core zero one) result }
    // A fault is the first bad line.
    ensures fault { IfErr result (IsFaultOf bytes.now) }
{
    read_core(alloc, bytes, core)
}

fn read_core(alloc: Global, bytes: &[u8], core: u8) -> Result<Vec<Event>, EventsFault>
    requires few { length bytes.now < 2 ^ 31 }
    ensures found { IfOk result (λ events. AreRead bytes.now core events.items) }
    ensures fault { IfErr result (IsFaultOf bytes.now) }
{
    let mut lines = Lines::of(bytes);
    read_head(&mut lines)?;
    let zero = read_zero(alloc, &mut lines)?;
    let one = read_one(alloc, &mut lines)?;
    if core == 0 { Ok(zero) } else { Ok(one) }
}

/// The line that names core 0.
fn read_head(lines: &mut Lines<'_>) -> Result<(), EventsFault>
    ensures text { OnOk result (lines.old.text ≡ head 0 ++ 10 ∷ lines.new.text) }
    ensures number { OnOk result (lines.new.number ≡ lines.old.number + 1) }
    ensures fault { IfErr result (FailsHead lines.old.text lines.old.number) }
{
    let number = lines.number();
    let Some(line) = lines.next_whole() else {
        return Err(EventsFault::Line(number));
    };
    if names_zero(line) {
        Ok(())
    } else {
        Err(EventsFault::Line(number))
    }
}

fn names_zero(line: &[u8]) -> bool
    ensures { IsTrue result ↔ (line.now ≡ head 0) }
{
    line == b"core 0".as_slice()
}

fn names_one(line: &[u8]) -> bool
    ensures { IsTrue result ↔ (line.now ≡ head 1) }
{
    line == b"core 1".as_slice()
}

/// Core 0's events, and the line that names core 1.
fn read_zero(alloc: Global, lines: &mut Lines<'_>) -> Result<Vec<Event>, EventsFault>
    ensures fits { IfOk result (λ events. AllFit events.items) }
    ensures text { IfOk result (λ events. lines.old.text ≡ told events.items ++ (head 1 ++ 10 ∷ lines.new.text)) }
    ensures number { IfOk result (λ events. lines.new.number ≡ lines.old.number + length events.items + 1) }
    ensures fault { IfErr result (FailsZero lines.old.text lines.old.number) }
{
    let section = read_section(alloc, lines)?;
    match section.stop {
        Stop::Head => Ok(section.events),
        Stop::End | Stop::Other => Err(EventsFault::Line(section.number)),
    }
}

/// Core 1's events, up to the end.
fn read_one(alloc: Global, lines: &mut Lines<'_>) -> Result<Vec<Event>, EventsFault>
    ensures fits { IfOk result (λ events. AllFit events.items) }
    ensures text { IfOk result (λ events. lines.old.text ≡ told events.items) }
    ensures fault { IfErr result (FailsOne lines.old.text lines.old.number) }
{
    let section = read_section(alloc, lines)?;
    match section.stop {
        Stop::End => Ok(section.events),
        Stop::Head | Stop::Other => Err(EventsFault::Line(section.number)),
    }
}

fn read_section(alloc: Global, lines: &mut Lines<'_>) -> Result<Section, EventsFault>
    ensures section { IfOk result (λ s. IsSection lines.old.text lines.old.number s.events.items s.number s.stop lines.new.text
        lines.new.number) }
    ensures fault { IfErr result (λ e. e ≡ Memory) }
{
    let mut events = Vec::new(alloc);
    'events: loop {
        let number = lines.number();
        let Some(line) = lines.next_whole() else {
            let stop = stop_at_end(lines);
            return Ok(Section {
                events,
                number,
                stop,
            });
        };
        let Some(event) = read_event(line) else {
            let stop = stop_at(line);
            return Ok(Section {
                events,
                number,
                stop,
            });
        };
        events.push(event)?;
    }
}

/// Where no line with its end is left.
fn stop_at_end(lines: &Lines<'_>) -> Stop
    requires { Lacks 10 lines.now.text }
    ensures { StopsAtEnd result lines.now.text }
{
    if lines.is_end() {
        Stop::End
    } else {
        Stop::Other
    }
}

fn stop_at(line: &[u8]) -> Stop
    ensures { StopsAtLine result line.now }
{
    if names_one(line) {
        Stop::Head
    } else {
        Stop::Other
    }
}
