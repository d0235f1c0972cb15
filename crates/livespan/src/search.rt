//! Whether a register may be read in a loop before it is written.

ghost use Rattle.std.specs.Prelude.{◌≡◌, ◌<◌, ◌+◌, ◌≤◌, IsTrue, ◌↔◌, length, false, IfOk};
ghost use Rattle.std.specs.Bool.{OnFalse};
ghost use Rattle.subreg.specs.Span.{MayBeRead, Within};
ghost use Rattle.livespan.specs.Live.{AreGoals};
ghost use Rattle.livespan.specs.Marks.{IsMarked, LeadsOn, AreSound, IsWanted, AreClosedFrom, MarksMore};

use crate::area::Area;
use crate::operations::{is_onward, is_read, is_written, kind_at};
use midcode::{OpKind, VReg};
use prunum::Memory;
use std::alloc::Global;

/// A place of the loop is marked. The marks are those of the loop's operations in order.
fn is_marked(turn: Area, marks: &[bool], place: usize) -> bool
    requires { turn.first + length marks.now ≡ turn.last + 1 }
    ensures { IsTrue result ↔ IsMarked turn.first turn.last marks.now place }
{
    if !turn.has(place) {
        return false;
    }
    marks[place - turn.first]
}

/// Whether a place that may follow is marked.
fn leads_on(
    kinds: &[OpKind],
    goals: &[Option<usize>],
    turn: Area,
    marks: &[bool],
    place: usize,
) -> bool
    requires goals { AreGoals kinds.now goals.now }
    requires marks { turn.first + length marks.now ≡ turn.last + 1 }
    requires within { place < length kinds.now }
    ensures { IsTrue result ↔ LeadsOn kinds.now turn.first turn.last marks.now place }
{
    let kind = kind_at(kinds, place);
    if is_onward(&kind) && is_marked(turn, marks, place + 1) {
        return true;
    }
    match goals[place] {
        None => false,
        Some(goal) => is_marked(turn, marks, goal),
    }
}

/// Whether the register is read at a place, or not written there and a place that may follow is marked.
fn is_wanted(
    kinds: &[OpKind],
    goals: &[Option<usize>],
    turn: Area,
    v: VReg,
    marks: &[bool],
    place: usize,
) -> bool
    requires goals { AreGoals kinds.now goals.now }
    requires marks { turn.first + length marks.now ≡ turn.last + 1 }
    requires within { place < length kinds.now }
    ensures { IsTrue result ↔ IsWanted kinds.now turn.first turn.last v marks.now place }
{
    let kind = kind_at(kinds, place);
    if is_read(&kind, v) {
        return true;
    }
    if is_written(&kind, v) {
        return false;
    }
    leads_on(kinds, goals, turn, marks, place)
}

/// Marks a place of the loop if it is wanted. Tells whether a mark was made, now or before.
fn mark(
    kinds: &[OpKind],
    goals: &[Option<usize>],
    turn: Area,
    v: VReg,
    marks: &mut [bool],
    place: usize,
    before: bool,
) -> bool
    requires goals { AreGoals kinds.now goals.now }
    requires marks { turn.first + length marks.old ≡ turn.last + 1 }
    requires last { turn.last < length kinds.now }
    requires within { Within turn.first turn.last place }
    ensures len { length marks.new ≡ length marks.old }
    ensures sound { AreSound kinds.now turn.first turn.last v marks.old → AreSound kinds.now turn.first turn.last v marks.new }
    ensures more { MarksMore before result marks.old marks.new }
    ensures closed { OnFalse result (IsWanted kinds.now turn.first turn.last v marks.new place
        → IsMarked turn.first turn.last marks.new place) }
{
    if is_marked(turn, marks, place) {
        return before;
    }
    if is_wanted(kinds, goals, turn, v, marks, place) {
        marks[place - turn.first] = true;
        return true;
    }
    before
}

/// Marks places of the loop that are wanted, the last one first. Tells whether there were any.
fn sweep(kinds: &[OpKind], goals: &[Option<usize>], turn: Area, v: VReg, marks: &mut [bool]) -> bool
    requires goals { AreGoals kinds.now goals.now }
    requires marks { turn.first + length marks.old ≡ turn.last + 1 }
    requires last { turn.last < length kinds.now }
    ensures len { length marks.new ≡ length marks.old }
    ensures sound { AreSound kinds.now turn.first turn.last v marks.old → AreSound kinds.now turn.first turn.last v marks.new }
    ensures more { MarksMore false result marks.old marks.new }
    ensures closed { OnFalse result (AreClosedFrom kinds.now turn.first turn.last v turn.first marks.new) }
{
    let mut changed = false;
    let mut place = turn.last + 1;
    while place > turn.first {
        place -= 1;
        changed = mark(kinds, goals, turn, v, marks, place, changed);
    }
    changed
}

/// Whether the register may be read in the loop, from its first place, before it is written.
pub fn may_be_read(
    alloc: Global,
    kinds: &[OpKind],
    goals: &[Option<usize>],
    turn: Area,
    v: VReg,
) -> Result<bool, Memory>
    requires goals { AreGoals kinds.now goals.now }
    requires forward { turn.first ≤ turn.last }
    requires last { turn.last < length kinds.now }
    ensures { IfOk result (λ read. IsTrue read ↔ MayBeRead kinds.now turn.first turn.last v turn.first) }
{
    let mut marks = vec![in alloc; false; turn.last - turn.first + 1]?;
    'sweeps: loop {
        if !sweep(kinds, goals, turn, v, &mut marks) {
            return Ok(is_marked(turn, &marks, turn.first));
        }
    }
}
