//! What a step gives and owes to the loops.

ghost use Rattle.std.specs.Prelude.{◌≡◌, ◌*◌, ◌≤◌, ◌<◌, ◌^◌, ◌↔◌, IsTrue, length};
ghost use Rattle.loopbound.specs.Loops.{move};
ghost use Rattle.loopbound.specs.Table.{side_of, gain, due, gains, dues, Allows, CanGo, HasTurn, HaveTurns, TurnsNone};

use crate::graph::{Move, Side, Step, TimedLoop, side_of};

fn gain(side: Side, step: &Step, l: &TimedLoop) -> u128
    ensures value { result ≡ gain (move l.now.shape step.now.from step.now.to) l.now.shape.turns (side_of side l.now.turn) }
    ensures small { result < 2 ^ 64 }
{
    match l.shape.movement(step) {
        Move::Leave => u128::from(
            u64::from(l.shape.turns.saturating_sub(1)) * u64::from(side_of(side, l.turn)),
        ),
        Move::Stay | Move::Turn => 0,
    }
}

fn due(side: Side, step: &Step, l: &TimedLoop) -> u128
    ensures value { result ≡ due (move l.now.shape step.now.from step.now.to) (side_of side l.now.turn) }
    ensures small { result < 2 ^ 64 }
{
    match l.shape.movement(step) {
        Move::Turn => u128::from(side_of(side, l.turn)),
        Move::Stay | Move::Leave => 0,
    }
}

/// The turns but the first of the loops that a step leaves.
pub fn gains(side: Side, step: &Step, loops: &[TimedLoop]) -> u128
    ensures value { result ≡ gains side step.now.from step.now.to loops.now }
    ensures small { result ≤ 2 ^ 64 * length loops.now }
{
    match loops.split_first() {
        Some((l, rest)) => gain(side, step, l) + gains(side, step, rest),
        None => 0,
    }
}

/// One turn of each loop that a step turns.
pub fn dues(side: Side, step: &Step, loops: &[TimedLoop]) -> u128
    ensures value { result ≡ dues side step.now.from step.now.to loops.now }
    ensures small { result ≤ 2 ^ 64 * length loops.now }
{
    match loops.split_first() {
        Some((l, rest)) => due(side, step, l) + dues(side, step, rest),
        None => 0,
    }
}

fn allows(step: &Step, l: &TimedLoop) -> bool
    ensures { IsTrue result ↔ Allows (move l.now.shape step.now.from step.now.to) l.now.shape.turns l.now.turn }
{
    match l.shape.movement(step) {
        Move::Stay => true,
        Move::Turn => 1 < l.shape.turns,
        Move::Leave => l.shape.turns == 1 || l.turn.is_some(),
    }
}

fn has_turn(step: &Step, l: &TimedLoop) -> bool
    ensures { IsTrue result ↔ HasTurn (move l.now.shape step.now.from step.now.to) l.now.turn }
{
    match l.shape.movement(step) {
        Move::Turn => l.turn.is_some(),
        Move::Stay | Move::Leave => true,
    }
}

/// A path may take a step, as far as the turns of its loops go.
pub fn can_go(step: &Step, loops: &[TimedLoop]) -> bool
    ensures { IsTrue result ↔ CanGo step.now.from step.now.to loops.now }
{
    match loops.split_first() {
        Some((l, rest)) => allows(step, l) && can_go(step, rest),
        None => true,
    }
}

/// Each loop that a step turns has a turn.
pub fn have_turns(step: &Step, loops: &[TimedLoop]) -> bool
    ensures { IsTrue result ↔ HaveTurns step.now.from step.now.to loops.now }
{
    match loops.split_first() {
        Some((l, rest)) => has_turn(step, l) && have_turns(step, rest),
        None => true,
    }
}

fn stays(step: &Step, l: &TimedLoop) -> bool
    ensures { IsTrue result ↔ (move l.now.shape step.now.from step.now.to ≡ Move.Turn → ⊥) }
{
    match l.shape.movement(step) {
        Move::Turn => false,
        Move::Stay | Move::Leave => true,
    }
}

/// A step turns no loop.
pub fn turns_none(step: &Step, loops: &[TimedLoop]) -> bool
    ensures { IsTrue result ↔ TurnsNone loops.now step.now }
{
    match loops.split_first() {
        Some((l, rest)) => stays(step, l) && turns_none(step, rest),
        None => true,
    }
}
