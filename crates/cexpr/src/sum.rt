//! `+` and `-`

ghost use Rattle.std.specs.Prelude.{IfOk, OnOk, ◌≡◌};
ghost use Rattle.cfault.specs.Fault.{noted};
ghost use Rattle.cexpr.specs.Ask.{value_scalar};
ghost use Rattle.cexpr.specs.Sum.{difference_made, difference_of, indexed_made, indexed_of, offset_made, offset_of, operator_of, sum, sum_by, sum_made, summed};

use crate::ask::{at_node, stride};
use crate::assignment::written;
use crate::integers::combined;
use crate::item::{IntegerItem, PointerItem, ValueItem};
use crate::node::Operation;
use crate::number::{arithmetic_part, widened};
use crate::pair::integer_part;
use crate::place::pointer_of;
use cfault::{Asked, Faults, judge};
use cprogram::{Direction, Element, Scalar};
use csize::Structure;
use csyn::{BinaryOperator, Cause, Mark, Sign};
use ctypes::{ConstRule, promoted};
use std::alloc::{AllocError, Global};

/// Two values that add up, or of which one is taken from the other.
#[derive(Drop)]
pub enum Sum<V> {
    Integers(IntegerItem<V>, IntegerItem<V>),
    /// A pointer to elements of this size, and by how many it moves.
    Offset(PointerItem<V>, Element, IntegerItem<V>),
    Indexed(IntegerItem<V>, PointerItem<V>, Element),
    /// Two pointers to elements of this size.
    Difference(PointerItem<V>, Element, ValueItem<V>),
}

fn operator_of(direction: Direction) -> BinaryOperator
    ensures { result ≡ operator_of direction }
{
    match direction {
        Direction::Up => BinaryOperator::Add,
        Direction::Down => BinaryOperator::Subtract,
    }
}

fn offset_of<V: Drop>(structures: &[Structure], p: ValueItem<V>, i: IntegerItem<V>) -> Asked<Sum<V>>
    ensures { result ≡ offset_of structures.now p i }
{
    match stride(structures, Some(p)) {
        Asked::Unsaid => Asked::Unsaid,
        Asked::No => Asked::No,
        Asked::Yes((p, element)) => Asked::Yes(Sum::Offset(p, element, i)),
    }
}

fn indexed_of<V: Drop>(
    structures: &[Structure],
    direction: Direction,
    i: IntegerItem<V>,
    p: ValueItem<V>,
) -> Asked<Sum<V>>
    ensures { result ≡ indexed_of structures.now direction i p }
{
    let Direction::Up = direction else {
        return Asked::No;
    };
    match stride(structures, Some(p)) {
        Asked::Unsaid => Asked::Unsaid,
        Asked::No => Asked::No,
        Asked::Yes((p, element)) => Asked::Yes(Sum::Indexed(i, p, element)),
    }
}

#[tactic(auto, unfolding(crate::specs::Sum::difference_of))]
fn difference_of<V: Drop>(
    structures: &[Structure],
    direction: Direction,
    p: ValueItem<V>,
    q: ValueItem<V>,
) -> Asked<Sum<V>>
    ensures { result ≡ difference_of structures.now direction p q }
{
    let Direction::Down = direction else {
        return Asked::No;
    };
    if !p.ctype.has_target_of(&q.ctype, ConstRule::Aside) {
        return Asked::No;
    }
    match stride(structures, Some(p)) {
        Asked::Unsaid => Asked::Unsaid,
        Asked::No => Asked::No,
        Asked::Yes((p, element)) => Asked::Yes(Sum::Difference(p, element, q)),
    }
}

fn sum_by<V: Drop>(
    structures: &[Structure],
    direction: Direction,
    a: ValueItem<V>,
    b: ValueItem<V>,
) -> Asked<Sum<V>>
    ensures { result ≡ sum_by structures.now direction a b (value_scalar a) (value_scalar b) }
{
    match (a.ctype.scalar(), b.ctype.scalar()) {
        (Some(Scalar::Integer(i)), Some(Scalar::Integer(j))) => {
            Asked::Yes(Sum::Integers(integer_part(a, i), integer_part(b, j)))
        }
        (Some(Scalar::Pointer(_)), Some(Scalar::Integer(j))) => {
            offset_of(structures, a, integer_part(b, j))
        }
        (Some(Scalar::Integer(i)), Some(Scalar::Pointer(_))) => {
            indexed_of(structures, direction, integer_part(a, i), b)
        }
        (Some(Scalar::Pointer(_)), Some(Scalar::Pointer(_))) => {
            difference_of(structures, direction, a, b)
        }
        _ => Asked::No,
    }
}

#[tactic(auto, unfolding(crate::specs::Sum::summed))]
fn summed<V: Drop>(
    structures: &[Structure],
    direction: Direction,
    a: Option<ValueItem<V>>,
    b: Option<ValueItem<V>>,
) -> Asked<Sum<V>>
    ensures { result ≡ summed structures.now direction a b }
{
    let Some(a) = a else {
        return Asked::Unsaid;
    };
    let Some(b) = b else {
        return Asked::Unsaid;
    };
    sum_by(structures, direction, a, b)
}

#[tactic(auto, unfolding(crate::specs::Sum::offset_made))]
fn offset_made<V: Drop>(
    mark: Mark,
    direction: Direction,
    p: PointerItem<V>,
    element: Element,
    i: IntegerItem<V>,
) -> Result<ValueItem<Operation<V>>, AllocError>
    ensures { IfOk result (λ v. v ≡ offset_made mark direction p element i) }
{
    let pointer = pointer_of(&p, element);
    let mut ctype = p.target;
    ctype.point()?;
    let sign = promoted(i.integer);
    let kind = Operation::PointerOffset(direction, pointer, p.value, sign, widened(i));
    Ok(written(ctype, mark, kind))
}

#[tactic(auto, unfolding(crate::specs::Sum::indexed_made))]
fn indexed_made<V: Drop>(
    mark: Mark,
    i: IntegerItem<V>,
    p: PointerItem<V>,
    element: Element,
) -> Result<ValueItem<Operation<V>>, AllocError>
    ensures { IfOk result (λ v. v ≡ indexed_made mark i p element) }
{
    let pointer = pointer_of(&p, element);
    let mut ctype = p.target;
    ctype.point()?;
    let sign = promoted(i.integer);
    let kind = Operation::IndexPlusPointer(pointer, sign, widened(i), p.value);
    Ok(written(ctype, mark, kind))
}

#[tactic(auto, unfolding(crate::specs::Sum::difference_made))]
fn difference_made<V: Drop>(
    alloc: Global,
    mark: Mark,
    p: PointerItem<V>,
    element: Element,
    q: ValueItem<V>,
) -> ValueItem<Operation<V>>
    ensures { result ≡ difference_made mark p element q }
{
    let pointer = pointer_of(&p, element);
    let kind = Operation::PointerDifference(pointer, p.value, q.value);
    arithmetic_part(alloc, Sign::Signed, None, mark, kind)
}

fn sum_made<V: Drop>(
    alloc: Global,
    mark: Mark,
    direction: Direction,
    sum: Sum<V>,
) -> Result<ValueItem<Operation<V>>, AllocError>
    ensures { IfOk result (λ v. v ≡ sum_made mark direction sum) }
{
    match sum {
        Sum::Integers(a, b) => Ok(combined(alloc, mark, operator_of(direction), a, b)),
        Sum::Offset(p, element, i) => {
            let made = offset_made(mark, direction, p, element, i)?;
            Ok(made)
        }
        Sum::Indexed(i, p, element) => {
            let made = indexed_made(mark, i, p, element)?;
            Ok(made)
        }
        Sum::Difference(p, element, q) => Ok(difference_made(alloc, mark, p, element, q)),
    }
}

/// `a + b`, or where it goes down `a - b`
#[tactic(auto, unfolding(crate::specs::Sum::sum))]
pub fn add<V: Drop>(
    alloc: Global,
    structures: &[Structure],
    mark: Mark,
    direction: Direction,
    a: Option<ValueItem<V>>,
    b: Option<ValueItem<V>>,
    faults: &mut Faults,
) -> Result<Option<ValueItem<Operation<V>>>, AllocError>
    ensures gives { IfOk result (λ v. v ≡ (sum structures.now mark direction a b).gives) }
    ensures noted { OnOk result (faults.new ≡ noted (sum structures.now mark direction a b).faults faults.old) }
{
    let asked = summed(structures, direction, a, b);
    let Some(sum) = judge(at_node(mark, Cause::S4), asked, faults) else {
        return Ok(None);
    };
    let made = sum_made(alloc, mark, direction, sum)?;
    Ok(Some(made))
}
