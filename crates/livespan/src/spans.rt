//! The live spans of a function.

ghost use Rattle.std.specs.Prelude.{◌≡◌, ◌≤◌, ◌<◌, length, Some, OnOk, IfOk};
ghost use Rattle.std.specs.Bool.{OnTrue};
ghost use Rattle.livespan.specs.declared.area.Area.{Area};
ghost use Rattle.midcode.specs.Operation.{parameters};
ghost use Rattle.midcode.specs.Function.{kinds, IsValidFunction};
ghost use Rattle.subreg.specs.Span.{IsSpan, MentionedAt};
ghost use Rattle.livespan.specs.Live.{AreGoals, AreLoops, AreStarts, GoesBack, IsHull, AreHulls, IsStraight, TellsCrossing, IsOver};
ghost use Rattle.livespan.specs.Spans.{AreSpansOf, AreSpansBelow, IsAdded};

use crate::area::Area;
use crate::flow::{goals, loops, starts};
use crate::mentions::mentions;
use crate::operations::{is_read, is_written, kind_at, operations};
use crate::search::may_be_read;
use midcode::{MidFn, OpKind, Signature, VReg};
use prunum::Memory;
use std::alloc::Global;
use subreg::Interval;

/// The operations of a function, where they go to, its loops, and where stretches without labels begin.
#[derive(Clone, Copy)]
struct Flow<'a> {
    kinds: &'a [OpKind],
    goals: &'a [Option<usize>],
    loops: &'a [Area],
    starts: &'a [usize],
}

/// Whether a register is written where it is first mentioned, and all its mentions stand in a stretch without labels.
fn is_straight(kinds: &[OpKind], starts: &[usize], v: VReg, hull: Area) -> bool
    requires starts { AreStarts kinds.now starts.now }
    requires forward { hull.first ≤ hull.last }
    requires last { hull.last < length kinds.now }
    ensures { OnTrue result (IsStraight kinds.now v hull) }
{
    if starts[hull.last] > hull.first {
        return false;
    }
    let kind = kind_at(kinds, hull.first);
    if is_read(&kind, v) {
        return false;
    }
    is_written(&kind, v)
}

/// Whether the register may be read in a loop around its mentions before it is written.
fn is_wanted_around(
    alloc: Global,
    f: &MidFn,
    flow: &Flow,
    v: VReg,
    hull: Area,
    turn: Area,
) -> Result<bool, Memory>
    requires kinds { flow.now.kinds.now ≡ kinds f.now }
    requires goals { AreGoals flow.now.kinds.now flow.now.goals.now }
    requires starts { AreStarts flow.now.kinds.now flow.now.starts.now }
    requires turn { GoesBack flow.now.goals.now turn }
    requires hull { IsHull (MentionedAt f.now) v hull }
    requires first { turn.first ≤ hull.first }
    requires last { hull.last ≤ turn.last }
    ensures { IfOk result (TellsCrossing f.now v hull turn) }
{
    if is_straight(flow.kinds, flow.starts, v, hull) {
        return Ok(false);
    }
    may_be_read(alloc, flow.kinds, flow.goals, turn, v)
}

/// Whether the span of a register, first and last mentioned at the ends of `hull`, crosses a loop. Where the loop lies between its
/// mentions, the answer may be no.
fn crosses(
    alloc: Global,
    f: &MidFn,
    flow: &Flow,
    v: VReg,
    hull: Area,
    turn: Area,
) -> Result<bool, Memory>
    requires kinds { flow.now.kinds.now ≡ kinds f.now }
    requires goals { AreGoals flow.now.kinds.now flow.now.goals.now }
    requires starts { AreStarts flow.now.kinds.now flow.now.starts.now }
    requires turn { GoesBack flow.now.goals.now turn }
    requires hull { IsHull (MentionedAt f.now) v hull }
    ensures { IfOk result (TellsCrossing f.now v hull turn) }
{
    if turn.has(hull.first) {
        if turn.has(hull.last) {
            return is_wanted_around(alloc, f, flow, v, hull, turn);
        }
        return Ok(true);
    }
    Ok(turn.has(hull.last))
}

/// `area`, extended over a loop if the span of the register crosses it.
fn extended(
    alloc: Global,
    f: &MidFn,
    flow: &Flow,
    v: VReg,
    hull: Area,
    turn: Area,
    area: Area,
) -> Result<Area, Memory>
    requires kinds { flow.now.kinds.now ≡ kinds f.now }
    requires goals { AreGoals flow.now.kinds.now flow.now.goals.now }
    requires starts { AreStarts flow.now.kinds.now flow.now.starts.now }
    requires turn { GoesBack flow.now.goals.now turn }
    requires hull { IsHull (MentionedAt f.now) v hull }
    requires first { area.first ≤ hull.first }
    requires last { hull.last ≤ area.last }
    ensures { IfOk result (IsOver f.now v turn area) }
{
    let is_crossed = crosses(alloc, f, flow, v, hull, turn)?;
    if is_crossed {
        return Ok(area.with(turn));
    }
    Ok(area)
}

/// The span of a register that is first and last mentioned at the ends of `hull`.
fn span(alloc: Global, f: &MidFn, flow: &Flow, v: VReg, hull: Area) -> Result<Area, Memory>
    requires kinds { flow.now.kinds.now ≡ kinds f.now }
    requires goals { AreGoals flow.now.kinds.now flow.now.goals.now }
    requires loops { AreLoops flow.now.goals.now flow.now.loops.now }
    requires starts { AreStarts flow.now.kinds.now flow.now.starts.now }
    requires hull { IsHull (MentionedAt f.now) v hull }
    ensures { IfOk result (λ a. IsSpan f.now v a.first a.last) }
{
    let mut area = hull;
    for turn in flow.loops {
        area = extended(alloc, f, flow, v, hull, *turn, area)?;
    }
    Ok(area)
}

fn interval(vreg: VReg, area: Area) -> Interval
    requires forward { area.first ≤ area.last }
    requires small { area.last < 1048576 }
    ensures { result ≡ record { vreg = vreg; from = area.first; to = area.last } }
{
    Interval {
        vreg,
        from: area.first as u32,
        to: area.last as u32,
    }
}

/// Adds the span of a register that has a hull.
fn add_span(
    alloc: Global,
    f: &MidFn,
    flow: &Flow,
    v: VReg,
    hull: Option<Area>,
    spans: &mut Vec<Interval>,
) -> Result<(), Memory>
    requires valid { IsValidFunction f.now }
    requires kinds { flow.now.kinds.now ≡ kinds f.now }
    requires goals { AreGoals flow.now.kinds.now flow.now.goals.now }
    requires loops { AreLoops flow.now.goals.now flow.now.loops.now }
    requires starts { AreStarts flow.now.kinds.now flow.now.starts.now }
    requires hull { (a : Area) → hull ≡ Some a → IsHull (MentionedAt f.now) v a }
    ensures { OnOk result (IsAdded f.now v hull spans.old.items spans.new.items) }
{
    match hull {
        None => Ok(()),
        Some(hull) => {
            let area = span(alloc, f, flow, v, hull)?;
            spans.push(interval(v, area))?;
            Ok(())
        }
    }
}

/// The spans of a function's registers in the order of their numbers.
fn by_number(
    alloc: Global,
    f: &MidFn,
    flow: &Flow,
    hulls: &[Option<Area>],
) -> Result<Vec<Interval>, Memory>
    requires valid { IsValidFunction f.now }
    requires kinds { flow.now.kinds.now ≡ kinds f.now }
    requires goals { AreGoals flow.now.kinds.now flow.now.goals.now }
    requires loops { AreLoops flow.now.goals.now flow.now.loops.now }
    requires starts { AreStarts flow.now.kinds.now flow.now.starts.now }
    requires len { length hulls.now ≡ length f.now.registers }
    requires hulls { AreHulls (MentionedAt f.now) hulls.now }
    ensures { IfOk result (λ spans. AreSpansBelow f.now (length f.now.registers) spans.items) }
{
    let mut spans = Vec::new(alloc);
    for number in 0..hulls.len() {
        add_span(
            alloc,
            f,
            flow,
            VReg(number as u32),
            hulls[number],
            &mut spans,
        )?;
    }
    Ok(spans)
}

fn parameter_count(signature: Signature) -> u8
    ensures { result ≡ length (parameters signature) }
{
    signature.count
}

/// The spans of a function with these operations, in the order of its registers.
fn spans_of(alloc: Global, f: &MidFn, operations: &[OpKind]) -> Result<Vec<Interval>, Memory>
    requires valid { IsValidFunction f.now }
    requires operations { operations.now ≡ kinds f.now }
    ensures { IfOk result (λ spans. AreSpansBelow f.now (length f.now.registers) spans.items) }
{
    let goals = goals(alloc, operations, f.labels() as usize)?;
    let loops = loops(alloc, &goals)?;
    let starts = starts(alloc, operations)?;
    let hulls = mentions(
        alloc,
        operations,
        f.registers().len(),
        parameter_count(*f.signature()),
    )?;
    let flow = Flow {
        kinds: operations,
        goals: &goals,
        loops: &loops,
        starts: &starts,
    };
    by_number(alloc, f, &flow, &hulls)
}

/// The live spans of a function's registers, in the order of their starts: for each register that is mentioned, from its first to its
/// last mention, extended over each loop that the span crosses.
pub fn intervals(alloc: Global, f: &MidFn) -> Result<Vec<Interval>, Memory>
    ensures { IfOk result (λ spans. AreSpansOf f.now spans.items) }
{
    let kinds = operations(alloc, f)?;
    let mut spans = spans_of(alloc, f, &kinds)?;
    spans.sort_by_key(|span| span.from)?;
    Ok(spans)
}
