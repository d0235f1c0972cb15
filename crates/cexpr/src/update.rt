//! `+=` and its like, `++` and `--`

ghost use Rattle.std.specs.Prelude.{◌≡◌};
ghost use Rattle.cfault.specs.Fault.{noted};
ghost use Rattle.cexpr.specs.Ask.{value_scalar};
ghost use Rattle.cexpr.specs.Update.{assign_with, direction_of, number_updated, pointer_updated, step, step_by, step_made, step_to, steps, update_by, update_made, update_to, updated};

use crate::ask::{at_node, target};
use crate::assignment::{access_of, written};
use crate::integers::operator_sign;
use crate::item::{IntegerItem, Item, TargetItem, ValueItem};
use crate::node::{Assignment, PlaceUse};
use crate::number::widened;
use crate::pair::integer_part;
use cfault::{Asked, Faults, judge};
use cprogram::{Direction, Integer, Pointer, Scalar, StepValue};
use csize::{Structure, inner_element};
use csyn::{BinaryOperator, Cause, Mark};
use ctypes::promoted;

/// A target and what changes it.
#[derive(Drop)]
pub enum Update<V, P> {
    /// A number of this type, by another.
    Number(Integer, TargetItem<P>, IntegerItem<V>),
    /// A pointer, by so many elements.
    Pointer(Direction, Pointer, TargetItem<P>, IntegerItem<V>),
}

/// A target that goes one step.
#[derive(Drop)]
pub enum Stepped<P> {
    Number(TargetItem<P>),
    Pointer(Pointer, TargetItem<P>),
}

// Which way the operator moves a pointer.
fn direction_of(operator: BinaryOperator) -> Option<Direction>
    ensures { result ≡ direction_of operator }
{
    match operator {
        BinaryOperator::Add => Some(Direction::Up),
        BinaryOperator::Subtract => Some(Direction::Down),
        _ => None,
    }
}

fn update_by<V: Drop, P: Drop>(
    structures: &[Structure],
    operator: BinaryOperator,
    t: TargetItem<P>,
    b: ValueItem<V>,
) -> Asked<Update<V, P>>
    ensures { result ≡ update_by structures.now operator t b t.scalar (value_scalar b) }
{
    let Some(Scalar::Integer(j)) = b.ctype.scalar() else {
        return Asked::No;
    };
    let b = integer_part(b, j);
    match t.scalar {
        Scalar::Integer(i) => Asked::Yes(Update::Number(i, t, b)),
        Scalar::Pointer(kind) => {
            let element = inner_element(structures, &t.ctype);
            match (direction_of(operator), element) {
                (Some(direction), Some(element)) => {
                    Asked::Yes(Update::Pointer(direction, Pointer { kind, element }, t, b))
                }
                _ => Asked::No,
            }
        }
    }
}

#[tactic(auto, unfolding(crate::specs::Update::updated))]
fn updated<V: Drop, P: Drop>(
    structures: &[Structure],
    operator: BinaryOperator,
    t: Option<TargetItem<P>>,
    b: Option<ValueItem<V>>,
) -> Asked<Update<V, P>>
    ensures { result ≡ updated structures.now operator t b }
{
    let Some(t) = t else {
        return Asked::Unsaid;
    };
    let Some(b) = b else {
        return Asked::Unsaid;
    };
    update_by(structures, operator, t, b)
}

#[tactic(auto, unfolding(crate::specs::Update::number_updated))]
fn number_updated<V: Drop, P: Drop>(
    mark: Mark,
    operator: BinaryOperator,
    i: Integer,
    t: TargetItem<P>,
    b: IntegerItem<V>,
) -> ValueItem<Assignment<V, P>>
    ensures { result ≡ number_updated mark operator i t b }
{
    let access = access_of(&t);
    let sign = operator_sign(operator, i, b.integer);
    let kind = Assignment::AssignWith(operator, sign, access, t.place, widened(b));
    written(t.ctype, mark, kind)
}

#[tactic(auto, unfolding(crate::specs::Update::pointer_updated))]
fn pointer_updated<V: Drop, P: Drop>(
    mark: Mark,
    direction: Direction,
    pointer: Pointer,
    t: TargetItem<P>,
    b: IntegerItem<V>,
) -> ValueItem<Assignment<V, P>>
    ensures { result ≡ pointer_updated mark direction pointer t b }
{
    let access = access_of(&t);
    let sign = promoted(b.integer);
    let kind = Assignment::OffsetAssign(direction, pointer, access, t.place, sign, widened(b));
    written(t.ctype, mark, kind)
}

fn update_made<V: Drop, P: Drop>(
    mark: Mark,
    operator: BinaryOperator,
    update: Update<V, P>,
) -> ValueItem<Assignment<V, P>>
    ensures { result ≡ update_made mark operator update }
{
    match update {
        Update::Number(i, t, b) => number_updated(mark, operator, i, t, b),
        Update::Pointer(direction, pointer, t, b) => {
            pointer_updated(mark, direction, pointer, t, b)
        }
    }
}

fn update_to<V: Drop, P: Drop>(
    structures: &[Structure],
    mark: Mark,
    operator: BinaryOperator,
    t: Option<TargetItem<P>>,
    b: Option<ValueItem<V>>,
    faults: &mut Faults,
) -> Option<ValueItem<Assignment<V, P>>>
    ensures gives { result ≡ (update_to structures.now mark operator t b).gives }
    ensures noted { faults.new ≡ noted (update_to structures.now mark operator t b).faults faults.old }
{
    let asked = updated(structures, operator, t, b);
    let update = judge(at_node(mark, Cause::S4), asked, faults)?;
    Some(update_made(mark, operator, update))
}

/// `a += b` and its like
#[tactic(auto, using(cfault::proofs::Least::noted_append), unfolding(crate::specs::Update::assign_with))]
pub fn assign_with<V: Drop, P: Drop>(
    structures: &[Structure],
    mark: Mark,
    operator: BinaryOperator,
    a: Option<Item<V, P>>,
    b: Option<ValueItem<V>>,
    faults: &mut Faults,
) -> Option<ValueItem<Assignment<V, P>>>
    ensures gives { result ≡ (assign_with structures.now mark operator a b).gives }
    ensures noted { faults.new ≡ noted (assign_with structures.now mark operator a b).faults faults.old }
{
    let t = judge(at_node(mark, Cause::S5), target(a), faults);
    update_to(structures, mark, operator, t, b, faults)
}

fn step_by<P: Drop>(structures: &[Structure], t: TargetItem<P>) -> Asked<Stepped<P>>
    ensures { result ≡ step_by structures.now t t.scalar }
{
    match t.scalar {
        Scalar::Integer(_) => Asked::Yes(Stepped::Number(t)),
        Scalar::Pointer(kind) => match inner_element(structures, &t.ctype) {
            Some(element) => Asked::Yes(Stepped::Pointer(Pointer { kind, element }, t)),
            None => Asked::No,
        },
    }
}

#[tactic(auto, unfolding(crate::specs::Update::steps))]
fn steps<P: Drop>(structures: &[Structure], t: Option<TargetItem<P>>) -> Asked<Stepped<P>>
    ensures { result ≡ steps structures.now t }
{
    match t {
        None => Asked::Unsaid,
        Some(t) => step_by(structures, t),
    }
}

fn step_made<P: Drop>(
    mark: Mark,
    value: StepValue,
    direction: Direction,
    stepped: Stepped<P>,
) -> ValueItem<PlaceUse<P>>
    ensures { result ≡ step_made mark value direction stepped }
{
    match stepped {
        Stepped::Number(t) => {
            let access = access_of(&t);
            written(
                t.ctype,
                mark,
                PlaceUse::Step(value, direction, access, t.place),
            )
        }
        Stepped::Pointer(pointer, t) => {
            let access = access_of(&t);
            let kind = PlaceUse::PointerStep(value, direction, pointer, access, t.place);
            written(t.ctype, mark, kind)
        }
    }
}

fn step_to<P: Drop>(
    structures: &[Structure],
    mark: Mark,
    value: StepValue,
    direction: Direction,
    t: Option<TargetItem<P>>,
    faults: &mut Faults,
) -> Option<ValueItem<PlaceUse<P>>>
    ensures gives { result ≡ (step_to structures.now mark value direction t).gives }
    ensures noted { faults.new ≡ noted (step_to structures.now mark value direction t).faults faults.old }
{
    let asked = steps(structures, t);
    let stepped = judge(at_node(mark, Cause::S4), asked, faults)?;
    Some(step_made(mark, value, direction, stepped))
}

/// `++` or `--`, before its operand or behind it
#[tactic(auto, using(cfault::proofs::Least::noted_append), unfolding(crate::specs::Update::step))]
pub fn step<V: Drop, P: Drop>(
    structures: &[Structure],
    mark: Mark,
    value: StepValue,
    direction: Direction,
    a: Option<Item<V, P>>,
    faults: &mut Faults,
) -> Option<ValueItem<PlaceUse<P>>>
    ensures gives { result ≡ (step structures.now mark value direction a).gives }
    ensures noted { faults.new ≡ noted (step structures.now mark value direction a).faults faults.old }
{
    let t = judge(at_node(mark, Cause::S5), target(a), faults);
    step_to(structures, mark, value, direction, t, faults)
}
