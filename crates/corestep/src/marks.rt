//! The marks of a word.

ghost use Rattle.std.specs.Prelude.{◌≡◌, ◌+◌, ◌%◌, ◌^◌, ◌≤◌, ◌<◌, ◌++◌, nat_lt, nat_le, length, option_map, option_to_list};
ghost use Rattle.prutrace.specs.declared.event.Event.TheVariants as Event;
ghost use Rattle.isa.specs.declared.note.NoteKind.TheVariants as NoteKind;
ghost use Rattle.isa.specs.Note.{AreOrdered};
ghost use Rattle.corestep.specs.Step as spec;

use crate::out::Events;
use isa::{Note, NoteKind};
use prutrace::Event;

/// The notes of a word.
pub fn notes_of(notes: &[Note], word: u16) -> &[Note]
    requires { AreOrdered notes.now }
    ensures { result.now ≡ spec.notes_at notes.now word }
{
    let from = notes.partition_point(|n| n.word < word);
    let (_, rest) = notes.split_at(from);
    let count = rest.partition_point(|n| n.word <= word);
    let (here, _) = rest.split_at(count);
    here
}

/// The value of the note of a kind.
fn value_of(notes: &[Note], kind: NoteKind) -> Option<u32>
    ensures { result ≡ spec.value_of_kind kind notes.now }
{
    notes
        .iter()
        .find(|n| n.kind.number() == kind.number())
        .map(|n| n.value)
}

/// The mark of a region.
fn region(value: u32) -> u16
    ensures { result ≡ value % 2 ^ 16 }
{
    (value % 0x1_0000) as u16
}

fn enter(notes: &[Note]) -> Option<Event>
    ensures { result ≡ option_map (λ v. Event.Enter (v % 2 ^ 16)) (spec.value_of_kind NoteKind.Enter notes.now) }
{
    match value_of(notes, NoteKind::Enter) {
        Some(v) => Some(Event::Enter(region(v))),
        None => None,
    }
}

fn leave(notes: &[Note]) -> Option<Event>
    ensures { result ≡ option_map (λ v. Event.Leave (v % 2 ^ 16)) (spec.value_of_kind NoteKind.Leave notes.now) }
{
    match value_of(notes, NoteKind::Leave) {
        Some(v) => Some(Event::Leave(region(v))),
        None => None,
    }
}

fn delay_in(notes: &[Note]) -> Option<Event>
    ensures { result ≡ option_map Event.DelayIn (spec.value_of_kind NoteKind.DelayIn notes.now) }
{
    match value_of(notes, NoteKind::DelayIn) {
        Some(v) => Some(Event::DelayIn(v)),
        None => None,
    }
}

fn delay_out(notes: &[Note]) -> Option<Event>
    ensures { result ≡ option_map Event.DelayOut (spec.value_of_kind NoteKind.DelayOut notes.now) }
{
    match value_of(notes, NoteKind::DelayOut) {
        Some(v) => Some(Event::DelayOut(v)),
        None => None,
    }
}

fn push_mark(events: &mut Events, mark: Option<Event>)
    requires { length events.old < 40 }
    ensures shown { events.new ≡ events.old ++ option_to_list mark }
    ensures few { length events.new ≤ length events.old + 1 }
{
    if let Some(event) = mark {
        events.push(event);
    }
}

/// The marks before a word's own events.
pub fn push_before(events: &mut Events, notes: &[Note])
    requires { length events.old < 39 }
    ensures shown { events.new ≡ events.old ++ spec.marks_before notes.now }
    ensures few { length events.new ≤ length events.old + 2 }
{
    push_mark(events, enter(notes));
    push_mark(events, delay_in(notes));
}

/// The marks behind them.
pub fn push_behind(events: &mut Events, notes: &[Note])
    requires { length events.old < 39 }
    ensures shown { events.new ≡ events.old ++ spec.marks_behind notes.now }
    ensures few { length events.new ≤ length events.old + 2 }
{
    push_mark(events, delay_out(notes));
    push_mark(events, leave(notes));
}
