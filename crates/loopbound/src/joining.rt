//! What one step makes of a table.

ghost use Rattle.std.specs.Prelude.{◌≡◌, ◌<◌, ◌-◌, ◌⊎◌, ℕ, length, IsTrue, IsFalse, IfSome, IfNone, Some};
ghost use Rattle.loopbound.specs.Table.{label_in, shapes, side_of};
ghost use Rattle.loopbound.specs.Joining.{joined, turned, turn_all, sum_behind, Takes, IsAbove};

use crate::graph::{Bounds, Move, Side, Step, TimedLoop, side_of};
use crate::judge::{has_label, label_of, sum_before};
use crate::sums::{can_go, turns_none};

pub fn joined(old: Option<Bounds>, new: Bounds) -> Bounds
    ensures { result ≡ joined old new }
{
    match old {
        Some(b) => Bounds {
            least: b.least.min(new.least),
            most: b.most.max(new.most),
        },
        None => new,
    }
}

fn turned(movement: Move, one: Bounds, turn: Option<Bounds>) -> Option<Bounds>
    ensures { result ≡ turned movement one turn }
{
    match movement {
        Move::Turn => Some(joined(turn, one)),
        Move::Stay | Move::Leave => turn,
    }
}

/// Joins the bounds of one turn to the loops that a step turns.
fn turn_all(step: &Step, one: Bounds, loops: &mut [TimedLoop])
    ensures { loops.new ≡ turn_all step.now.from step.now.to one loops.old }
{
    if let Some((l, rest)) = loops.split_first_mut() {
        l.turn = turned(l.shape.movement(step), one, l.turn);
        turn_all(step, one, rest);
    }
}

pub fn put_label(labels: &mut [Option<Bounds>], word: u32, label: Bounds)
    ensures len { length labels.new ≡ length labels.old }
    ensures here { word < length labels.old → label_in labels.new word ≡ Some label }
    ensures there { (w : ℕ) → (w ≡ word → ⊥) → label_in labels.new w ≡ label_in labels.old w }
{
    let index = word as usize;
    if index < labels.len() {
        labels[index] = Some(label);
    }
}

/// The sum behind a step, unless it is above the limit.
fn sum_of(step: &Step, loops: &[TimedLoop], labels: &[Option<Bounds>], limit: u32) -> Option<Bounds>
    ensures least { IfSome result (λ v. v.least ≡ sum_behind Side.Least loops.now (label_in labels.now) step.now) }
    ensures most { IfSome result (λ v. v.most ≡ sum_behind Side.Most loops.now (label_in labels.now) step.now) }
    ensures above { IfNone result ((limit < sum_behind Side.Least loops.now (label_in labels.now) step.now)
        ⊎ (limit < sum_behind Side.Most loops.now (label_in labels.now) step.now)) }
{
    let least = sum_before(Side::Least, step, loops, labels);
    let most = sum_before(Side::Most, step, loops, labels);
    if u128::from(limit) < least {
        return None;
    }
    if u128::from(limit) < most {
        return None;
    }
    Some(Bounds {
        least: least as u32,
        most: most as u32,
    })
}

/// What is above a label.
fn above(sum: Bounds, label: Option<Bounds>) -> Bounds
    ensures least { result.least ≡ sum.least - side_of Side.Least label }
    ensures most { result.most ≡ sum.most - side_of Side.Most label }
{
    Bounds {
        least: sum.least.saturating_sub(side_of(Side::Least, label)),
        most: sum.most.saturating_sub(side_of(Side::Most, label)),
    }
}

/// Takes one step. False, with nothing changed, where its sum is above the limit.
pub fn take_step(
    step: &Step,
    loops: &mut [TimedLoop],
    labels: &mut [Option<Bounds>],
    limit: u32,
) -> bool
    ensures len { length labels.new ≡ length labels.old }
    ensures shapes { shapes loops.new ≡ shapes loops.old }
    ensures taken { IsTrue result → step.now.to < length labels.old → Takes step.now loops.old labels.old loops.new labels.new }
    ensures loops_kept { IsFalse result → loops.new ≡ loops.old }
    ensures labels_kept { IsFalse result → labels.new ≡ labels.old }
    ensures above { IsFalse result → IsAbove step.now loops.old (label_in labels.old) limit }
{
    if !has_label(labels, step.from) {
        return true;
    }
    if !can_go(step, loops) {
        return true;
    }
    let label = label_of(labels, step.to);
    match sum_of(step, loops, labels, limit) {
        Some(sum) => {
            if turns_none(step, loops) {
                put_label(labels, step.to, joined(label, sum));
            } else {
                turn_all(step, above(sum, label), loops);
            }
            true
        }
        None => false,
    }
}
