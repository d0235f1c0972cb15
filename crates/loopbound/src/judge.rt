//! Whether a table of bounds fits and is tight.

ghost use Rattle.std.specs.Prelude.{◌≡◌, ◌+◌, ◌<◌, ◌≤◌, ◌↔◌, ℕ, IsTrue, IsSome, Contains, length};
ghost use Rattle.std.specs.List.{AllByRecursion};
ghost use Rattle.loopbound.specs.Loops.{move};
ghost use Rattle.loopbound.specs.Path.{at};
ghost use Rattle.loopbound.specs.Table.{side_of, gains, dues, label_in, KeepsBounds, FitsStep, Fits};
ghost use Rattle.loopbound.specs.Table.{Meets, Explains, ExplainsTurn, WordExplained, LoopExplained, AnyOf, Tight};

use crate::graph::{Bounds, Loop, Move, Side, Step, TimedLoop, side_of};
use crate::sums::{can_go, dues, gains, have_turns, turns_none};

/// The label of a word, if it has one.
pub fn label_of(labels: &[Option<Bounds>], word: u32) -> Option<Bounds>
    ensures { result ≡ label_in labels.now word }
{
    label_at(labels, word as usize)
}

fn label_at(labels: &[Option<Bounds>], word: usize) -> Option<Bounds>
    ensures { result ≡ label_in labels.now word }
{
    match labels.get(word) {
        Some(label) => *label,
        None => None,
    }
}

/// The label that a step comes from, with its cycles and the turns of the loops that it leaves.
pub fn sum_before(side: Side, step: &Step, loops: &[TimedLoop], labels: &[Option<Bounds>]) -> u128
    ensures { result
        ≡ side_of side (label_in labels.now step.now.from) + at side step.now.cost + gains side step.now.from step.now.to loops.now }
{
    u128::from(side_of(side, label_of(labels, step.from)))
        + u128::from(step.cost.at(side))
        + gains(side, step, loops)
}

/// The label that a step comes to, with one turn of each loop that it turns.
fn sum_behind(side: Side, step: &Step, loops: &[TimedLoop], labels: &[Option<Bounds>]) -> u128
    ensures { result ≡ side_of side (label_in labels.now step.now.to) + dues side step.now.from step.now.to loops.now }
{
    u128::from(side_of(side, label_of(labels, step.to))) + dues(side, step, loops)
}

pub fn has_label(labels: &[Option<Bounds>], word: u32) -> bool
    ensures { IsTrue result ↔ IsSome (label_in labels.now word) }
{
    label_of(labels, word).is_some()
}

fn fits_known(step: &Step, loops: &[TimedLoop], labels: &[Option<Bounds>]) -> bool
    ensures { IsTrue result ↔ FitsStep loops.now (label_in labels.now) step.now }
{
    has_label(labels, step.to)
        && have_turns(step, loops)
        && sum_behind(Side::Least, step, loops, labels)
            <= sum_before(Side::Least, step, loops, labels)
        && sum_before(Side::Most, step, loops, labels)
            <= sum_behind(Side::Most, step, loops, labels)
}

/// A step that some path takes keeps the bounds of its two words.
pub fn keeps_bounds(step: &Step, loops: &[TimedLoop], labels: &[Option<Bounds>]) -> bool
    ensures { IsTrue result ↔ KeepsBounds loops.now (label_in labels.now) step.now }
{
    if !has_label(labels, step.from) {
        return true;
    }
    if !can_go(step, loops) {
        return true;
    }
    fits_known(step, loops, labels)
}

fn all_keep(steps: &[Step], loops: &[TimedLoop], labels: &[Option<Bounds>]) -> bool
    ensures { IsTrue result ↔ AllByRecursion (KeepsBounds loops.now (label_in labels.now)) steps.now }
{
    match steps.split_first() {
        Some((step, rest)) => keeps_bounds(step, loops, labels) && all_keep(rest, loops, labels),
        None => true,
    }
}

fn starts_at_zero(entry: u32, labels: &[Option<Bounds>]) -> bool
    ensures { IsTrue result ↔ (IsSome (label_in labels.now entry) × (side_of Side.Least (label_in labels.now entry) ≡ 0)) }
{
    has_label(labels, entry) && side_of(Side::Least, label_of(labels, entry)) == 0
}

/// Each bound holds for all paths from an entry over these steps.
pub fn fits(steps: &[Step], loops: &[TimedLoop], labels: &[Option<Bounds>], entry: u32) -> bool
    ensures { IsTrue result ↔ Fits (Contains steps.now) loops.now (label_in labels.now) entry }
{
    starts_at_zero(entry, labels) && all_keep(steps, loops, labels)
}

/// A step that a path takes meets one side of the bounds.
pub fn meets(side: Side, step: &Step, loops: &[TimedLoop], labels: &[Option<Bounds>]) -> bool
    ensures { IsTrue result ↔ Meets loops.now (label_in labels.now) side step.now }
{
    has_label(labels, step.from)
        && can_go(step, loops)
        && sum_behind(side, step, loops, labels) == sum_before(side, step, loops, labels)
}

fn explains(
    side: Side,
    word: usize,
    step: &Step,
    loops: &[TimedLoop],
    labels: &[Option<Bounds>],
) -> bool
    ensures { IsTrue result ↔ Explains loops.now (label_in labels.now) side word step.now }
{
    step.to as usize == word && meets(side, step, loops, labels) && turns_none(step, loops)
}

fn any_explains(
    side: Side,
    word: usize,
    steps: &[Step],
    loops: &[TimedLoop],
    labels: &[Option<Bounds>],
) -> bool
    ensures { IsTrue result ↔ AnyOf (Explains loops.now (label_in labels.now) side word) steps.now }
{
    match steps.split_first() {
        Some((step, rest)) => {
            explains(side, word, step, loops, labels)
                || any_explains(side, word, rest, loops, labels)
        }
        None => false,
    }
}

fn turned_by(l: &Loop, step: &Step) -> bool
    ensures { IsTrue result ↔ (move l.now step.now.from step.now.to ≡ Move.Turn) }
{
    match l.movement(step) {
        Move::Turn => true,
        Move::Stay | Move::Leave => false,
    }
}

fn any_explains_turn(
    side: Side,
    l: &Loop,
    steps: &[Step],
    loops: &[TimedLoop],
    labels: &[Option<Bounds>],
) -> bool
    ensures { IsTrue result ↔ AnyOf (ExplainsTurn loops.now (label_in labels.now) side l.now) steps.now }
{
    match steps.split_first() {
        Some((step, rest)) => {
            (turned_by(l, step) && meets(side, step, loops, labels))
                || any_explains_turn(side, l, rest, loops, labels)
        }
        None => false,
    }
}

fn word_explained(
    side: Side,
    word: usize,
    steps: &[Step],
    loops: &[TimedLoop],
    labels: &[Option<Bounds>],
    entry: u32,
) -> bool
    ensures { IsTrue result ↔ WordExplained steps.now loops.now (label_in labels.now) entry side word }
{
    let label = label_at(labels, word);
    if label.is_none() {
        return true;
    }
    if word == entry as usize && side_of(side, label) == 0 {
        return true;
    }
    any_explains(side, word, steps, loops, labels)
}

fn words_explained(
    side: Side,
    steps: &[Step],
    loops: &[TimedLoop],
    labels: &[Option<Bounds>],
    entry: u32,
) -> bool
    ensures { IsTrue result
        ↔ ((w : ℕ) → w < length labels.now → WordExplained steps.now loops.now (label_in labels.now) entry side w) }
{
    for word in 0..labels.len() {
        if !word_explained(side, word, steps, loops, labels, entry) {
            return false;
        }
    }
    true
}

fn loop_explained(
    side: Side,
    l: &TimedLoop,
    steps: &[Step],
    loops: &[TimedLoop],
    labels: &[Option<Bounds>],
) -> bool
    ensures { IsTrue result ↔ LoopExplained steps.now loops.now (label_in labels.now) side l.now }
{
    if l.turn.is_none() {
        return true;
    }
    any_explains_turn(side, &l.shape, steps, loops, labels)
}

fn loops_explained(
    side: Side,
    these: &[TimedLoop],
    steps: &[Step],
    loops: &[TimedLoop],
    labels: &[Option<Bounds>],
) -> bool
    ensures { IsTrue result ↔ AllByRecursion (LoopExplained steps.now loops.now (label_in labels.now) side) these.now }
{
    match these.split_first() {
        Some((l, rest)) => {
            loop_explained(side, l, steps, loops, labels)
                && loops_explained(side, rest, steps, loops, labels)
        }
        None => true,
    }
}

/// Each bound on one side is met by a step that comes to its word, or turns its loop.
pub fn tight(
    side: Side,
    steps: &[Step],
    loops: &[TimedLoop],
    labels: &[Option<Bounds>],
    entry: u32,
) -> bool
    ensures { IsTrue result ↔ Tight (Contains steps.now) loops.now (label_in labels.now) entry side }
{
    words_explained(side, steps, loops, labels, entry)
        && loops_explained(side, loops, steps, loops, labels)
}
