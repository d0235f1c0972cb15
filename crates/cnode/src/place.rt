//! Places.

ghost use Rattle.std.specs.Prelude.{◌≡◌, IfOk};
ghost use Rattle.cnode.specs.Made.{whole_kind, reached_kind, inner_kind, place_with};

use crate::boxes::{boxed_operand, boxed_place, boxed_value};
use crate::kind::{PlaceNode, ValueNode};
use cexpr::{Inner, Marked, PlaceItem, Reached, Whole};
use cprogram::PlaceKind;
use std::alloc::{AllocError, Global};

fn whole_kind(whole: Whole) -> PlaceNode
    ensures { result ≡ whole_kind whole }
{
    let kind = match whole {
        Whole::Local(number) => PlaceKind::Local(number),
        Whole::Global(number) => PlaceKind::Global(number),
        Whole::Volatile(address) => PlaceKind::Volatile(address),
        Whole::Register(register) => PlaceKind::Register(register),
    };
    PlaceNode { kind }
}

/// The node of a whole object or a register.
pub fn whole_node(item: PlaceItem<Whole>) -> PlaceItem<PlaceNode>
    ensures { result ≡ place_with whole_kind item }
{
    let Marked { mark, kind } = item.place;
    PlaceItem {
        ctype: item.ctype,
        reach: item.reach,
        is_variable: item.is_variable,
        place: Marked {
            mark,
            kind: whole_kind(kind),
        },
    }
}

fn reached_kind(alloc: Global, reached: Reached<ValueNode>) -> Result<PlaceNode, AllocError>
    ensures { IfOk result (λ k. k ≡ reached_kind reached) }
{
    let kind = match reached {
        Reached::Dereference(a) => PlaceKind::Dereference(boxed_value(alloc, a)?),
        Reached::Subscript(pointer, a, sign, i) => {
            let a = boxed_value(alloc, a)?;
            PlaceKind::Subscript(pointer, a, sign, boxed_operand(alloc, i)?)
        }
        Reached::Arrow(a, offset) => PlaceKind::Arrow(boxed_value(alloc, a)?, offset),
    };
    Ok(PlaceNode { kind })
}

/// The node of a place to which a value leads.
pub fn reached_node(
    alloc: Global,
    item: PlaceItem<Reached<ValueNode>>,
) -> Result<PlaceItem<PlaceNode>, AllocError>
    ensures { IfOk result (λ p. p ≡ place_with reached_kind item) }
{
    let Marked { mark, kind } = item.place;
    let kind = reached_kind(alloc, kind)?;
    Ok(PlaceItem {
        ctype: item.ctype,
        reach: item.reach,
        is_variable: item.is_variable,
        place: Marked { mark, kind },
    })
}

/// The node of a part of a place.
pub fn inner_node(
    alloc: Global,
    item: PlaceItem<Inner<PlaceNode>>,
) -> Result<PlaceItem<PlaceNode>, AllocError>
    ensures { IfOk result (λ p. p ≡ place_with inner_kind item) }
{
    let Marked { mark, kind } = item.place;
    let Inner { whole, offset } = kind;
    let kind = PlaceKind::Member(boxed_place(alloc, whole)?, offset);
    Ok(PlaceItem {
        ctype: item.ctype,
        reach: item.reach,
        is_variable: item.is_variable,
        place: Marked {
            mark,
            kind: PlaceNode { kind },
        },
    })
}
