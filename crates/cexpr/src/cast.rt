//! Casts, and `sizeof`

ghost use Rattle.std.specs.Prelude.{◌≡◌};
ghost use Rattle.cfault.specs.Asked.{asked_of};
ghost use Rattle.cfault.specs.Fault.{noted};
ghost use Rattle.cexpr.specs.Cast.{cast_by, cast_from, cast_made, cast_number, cast_of, cast_to, casted, expression_size, part_type, size_of, type_size};

use crate::ask::at_node;
use crate::assignment::is_zero;
use crate::item::{Item, Marked, OperandItem, ValueItem};
use crate::node::{Constant, Operation};
use crate::prefix::constant;
use cfault::{Asked, Faults, judge};
use cprogram::{Conversion, Element, Scalar, convert};
use csize::{Structure, element_of};
use csyn::{Cause, Mark, Sign};
use ctypes::{BaseKind, CType};
use std::alloc::Global;

// The number that a constant becomes.
fn cast_number(from: Option<Scalar>, to: Scalar, number: Option<u32>) -> Option<u32>
    ensures { result ≡ cast_number from to number }
{
    match (from, to, number) {
        (Some(Scalar::Integer(i)), Scalar::Integer(j), Some(n)) => Some(convert(i, j.width, n)),
        _ => None,
    }
}

fn cast_made<V: Drop>(
    mark: Mark,
    ctype: CType,
    item: ValueItem<V>,
    scalar: Scalar,
    conversion: Conversion,
) -> ValueItem<Operation<V>>
    ensures { result ≡ cast_made mark ctype item scalar conversion }
{
    let number = cast_number(item.ctype.scalar(), scalar, item.number);
    let operand = OperandItem {
        conversion,
        value: item.value,
    };
    ValueItem {
        ctype,
        number,
        own: None,
        value: Marked {
            mark,
            kind: Operation::Cast(scalar, operand),
        },
    }
}

fn cast_from<V>(item: &ValueItem<V>, ctype: &CType) -> Option<Conversion>
    ensures { result ≡ cast_from item.now ctype.now }
{
    item.ctype.cast(is_zero(item.number), ctype)
}

fn cast_by(scalar: Option<Scalar>, conversion: Option<Conversion>) -> Asked<(Scalar, Conversion)>
    ensures { result ≡ cast_by scalar conversion }
{
    match (scalar, conversion) {
        (Some(scalar), Some(conversion)) => Asked::Yes((scalar, conversion)),
        _ => Asked::No,
    }
}

// What a cast does, to a type that isn't void or made of it.
fn cast_to<V>(ctype: &CType, item: &ValueItem<V>) -> Asked<(Scalar, Conversion)>
    ensures { result ≡ cast_to ctype.now item.now ctype.now.base.kind }
{
    match ctype.base().kind {
        BaseKind::Void => Asked::No,
        _ => cast_by(ctype.scalar(), cast_from(item, ctype)),
    }
}

fn cast_of<V: Drop>(
    mark: Mark,
    ctype: CType,
    item: ValueItem<V>,
    faults: &mut Faults,
) -> Option<ValueItem<Operation<V>>>
    ensures gives { result ≡ (cast_of mark ctype item).gives }
    ensures noted { faults.new ≡ noted (cast_of mark ctype item).faults faults.old }
{
    let asked = cast_to(&ctype, &item);
    let (scalar, conversion) = judge(at_node(mark, Cause::S17), asked, faults)?;
    Some(cast_made(mark, ctype, item, scalar, conversion))
}

/// `(t)a`, for a type that is given where its name breaks no rule.
#[tactic(auto, unfolding(crate::specs::Cast::casted))]
pub fn casted<V: Drop>(
    mark: Mark,
    ctype: Option<CType>,
    a: Option<ValueItem<V>>,
    faults: &mut Faults,
) -> Option<ValueItem<Operation<V>>>
    ensures gives { result ≡ (casted mark ctype a).gives }
    ensures noted { faults.new ≡ noted (casted mark ctype a).faults faults.old }
{
    let Some(ctype) = ctype else {
        return None;
    };
    let Some(a) = a else {
        return None;
    };
    cast_of(mark, ctype, a, faults)
}

// The size of a type that isn't void or made of it.
fn size_of(structures: &[Structure], ctype: &CType) -> Asked<Element>
    ensures { result ≡ size_of structures.now ctype.now }
{
    match ctype.base().kind {
        BaseKind::Void => Asked::No,
        _ => Asked::of(element_of(structures, ctype)),
    }
}

fn type_asked(structures: &[Structure], ctype: Option<CType>) -> Asked<Element>
    ensures { result ≡ asked_of ctype (size_of structures.now) }
{
    match ctype {
        None => Asked::Unsaid,
        Some(ctype) => size_of(structures, &ctype),
    }
}

fn expression_asked<V: Drop, P: Drop>(
    structures: &[Structure],
    a: Option<Item<V, P>>,
) -> Asked<Element>
    ensures { result ≡ asked_of a (λ a. size_of structures.now (part_type a)) }
{
    match a {
        None => Asked::Unsaid,
        Some(Item::Value(value)) => size_of(structures, &value.ctype),
        Some(Item::Place(place)) => size_of(structures, &place.ctype),
    }
}

/// `sizeof(t)`, for a type that is given where its name breaks no rule.
#[tactic(auto, unfolding(crate::specs::Cast::type_size))]
pub fn type_size(
    alloc: Global,
    structures: &[Structure],
    mark: Mark,
    ctype: Option<CType>,
    faults: &mut Faults,
) -> Option<ValueItem<Constant>>
    ensures gives { result ≡ (type_size structures.now mark ctype).gives }
    ensures noted { faults.new ≡ noted (type_size structures.now mark ctype).faults faults.old }
{
    let asked = type_asked(structures, ctype);
    let element = judge(at_node(mark, Cause::S4), asked, faults)?;
    Some(constant(alloc, mark, element.bytes, Sign::Unsigned))
}

/// `sizeof a`
#[tactic(auto, unfolding(crate::specs::Cast::expression_size))]
pub fn expression_size<V: Drop, P: Drop>(
    alloc: Global,
    structures: &[Structure],
    mark: Mark,
    a: Option<Item<V, P>>,
    faults: &mut Faults,
) -> Option<ValueItem<Constant>>
    ensures gives { result ≡ (expression_size structures.now mark a).gives }
    ensures noted { faults.new ≡ noted (expression_size structures.now mark a).faults faults.old }
{
    let asked = expression_asked(structures, a);
    let element = judge(at_node(mark, Cause::S4), asked, faults)?;
    Some(constant(alloc, mark, element.bytes, Sign::Unsigned))
}
