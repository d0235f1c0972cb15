//! What rules ask of the parts of an expression.

ghost use Rattle.std.specs.Prelude.{◌≡◌};
ghost use Rattle.cexpr.specs.Ask.{at_node, integer, pointer, scalar, stride, target};

use crate::item::{IntegerItem, Item, PointerItem, TargetItem, ValueItem};
use cfault::{Asked, Fault};
use cprogram::{Element, Scalar};
use csize::{Structure, element_of};
use csyn::{Cause, Mark};

/// A rule that is broken at a node.
pub fn at_node(mark: Mark, cause: Cause) -> Fault
    ensures { result ≡ at_node mark cause }
{
    Fault {
        span: mark.span,
        cause,
    }
}

/// A value of an integer type.
#[tactic(auto, unfolding(crate::specs::Ask::integer))]
pub fn integer<V: Drop>(item: Option<ValueItem<V>>) -> Asked<IntegerItem<V>>
    ensures { result ≡ integer item }
{
    let Some(item) = item else {
        return Asked::Unsaid;
    };
    match item.ctype.scalar() {
        Some(Scalar::Integer(integer)) => Asked::Yes(IntegerItem {
            integer,
            number: item.number,
            value: item.value,
        }),
        _ => Asked::No,
    }
}

/// A value that is a pointer.
#[tactic(auto, unfolding(crate::specs::Ask::pointer))]
pub fn pointer<V: Drop>(item: Option<ValueItem<V>>) -> Asked<PointerItem<V>>
    ensures { result ≡ pointer item }
{
    let Some(item) = item else {
        return Asked::Unsaid;
    };
    let Some(Scalar::Pointer(kind)) = item.ctype.scalar() else {
        return Asked::No;
    };
    match item.ctype.into_target() {
        Some(target) => Asked::Yes(PointerItem {
            kind,
            target,
            own: item.own,
            value: item.value,
        }),
        None => Asked::No,
    }
}

/// A value of an integer type or a pointer.
#[tactic(auto, unfolding(crate::specs::Ask::scalar))]
pub fn scalar<V: Drop>(item: Option<ValueItem<V>>) -> Asked<ValueItem<V>>
    ensures { result ≡ scalar item }
{
    let Some(item) = item else {
        return Asked::Unsaid;
    };
    match item.ctype.scalar() {
        Some(_) => Asked::Yes(item),
        None => Asked::No,
    }
}

/// A pointer to what has a size.
#[tactic(auto, unfolding(crate::specs::Ask::stride))]
pub fn stride<V: Drop>(
    structures: &[Structure],
    item: Option<ValueItem<V>>,
) -> Asked<(PointerItem<V>, Element)>
    ensures { result ≡ stride structures.now item }
{
    match pointer(item) {
        Asked::Unsaid => Asked::Unsaid,
        Asked::No => Asked::No,
        Asked::Yes(pointer) => match element_of(structures, &pointer.target) {
            Some(element) => Asked::Yes((pointer, element)),
            None => Asked::No,
        },
    }
}

/// A place that may be written.
#[tactic(auto, unfolding(crate::specs::Ask::target))]
pub fn target<V: Drop, P: Drop>(item: Option<Item<V, P>>) -> Asked<TargetItem<P>>
    ensures { result ≡ target item }
{
    match item {
        None => Asked::Unsaid,
        Some(Item::Value(_)) => Asked::No,
        Some(Item::Place(place)) => match place.ctype.scalar() {
            Some(scalar) if !place.ctype.qualifiers().is_const => Asked::Yes(TargetItem {
                scalar,
                ctype: place.ctype,
                reach: place.reach,
                place: place.place,
            }),
            _ => Asked::No,
        },
    }
}
