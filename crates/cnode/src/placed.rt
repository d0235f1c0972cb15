//! What is made of places, and of places and values.

ghost use Rattle.std.specs.Prelude.{◌≡◌, IfOk};
ghost use Rattle.cnode.specs.Made.{assignment_kind, use_kind, taken_kind, value_with};

use crate::boxes::{boxed_operand, boxed_place};
use crate::kind::{PlaceNode, ValueNode};
use cexpr::{Assignment, Marked, PlaceUse, Taken, ValueItem};
use cprogram::{Access, AccessKind, Value, ValueKind};
use std::alloc::{AllocError, Global};

fn assignment_kind(
    alloc: Global,
    assignment: Assignment<ValueNode, PlaceNode>,
) -> Result<ValueNode, AllocError>
    ensures { IfOk result (λ k. k ≡ assignment_kind assignment) }
{
    let kind = match assignment {
        Assignment::Assign(access, p, b) => {
            let p = boxed_place(alloc, p)?;
            ValueKind::Assign(access, p, boxed_operand(alloc, b)?)
        }
        Assignment::AssignWith(operator, sign, access, p, b) => {
            let p = boxed_place(alloc, p)?;
            ValueKind::AssignWith(operator, sign, access, p, boxed_operand(alloc, b)?)
        }
        Assignment::OffsetAssign(direction, pointer, access, p, sign, b) => {
            let p = boxed_place(alloc, p)?;
            let b = boxed_operand(alloc, b)?;
            ValueKind::OffsetAssign(direction, pointer, access, p, sign, b)
        }
    };
    Ok(ValueNode { kind })
}

/// The node of an assignment.
pub fn assignment_node(
    alloc: Global,
    item: ValueItem<Assignment<ValueNode, PlaceNode>>,
) -> Result<ValueItem<ValueNode>, AllocError>
    ensures { IfOk result (λ v. v ≡ value_with assignment_kind item) }
{
    let Marked { mark, kind } = item.value;
    let kind = assignment_kind(alloc, kind)?;
    Ok(ValueItem {
        ctype: item.ctype,
        number: item.number,
        own: item.own,
        value: Marked { mark, kind },
    })
}

fn use_kind(alloc: Global, place_use: PlaceUse<PlaceNode>) -> Result<ValueNode, AllocError>
    ensures { IfOk result (λ k. k ≡ use_kind place_use) }
{
    let kind = match place_use {
        PlaceUse::Address(kind, p) => ValueKind::Address(kind, boxed_place(alloc, p)?),
        PlaceUse::Step(value, direction, access, p) => {
            ValueKind::Step(value, direction, access, boxed_place(alloc, p)?)
        }
        PlaceUse::PointerStep(value, direction, pointer, access, p) => {
            ValueKind::PointerStep(value, direction, pointer, access, boxed_place(alloc, p)?)
        }
        PlaceUse::ScratchpadIn(register, p) => {
            ValueKind::ScratchpadIn(register, boxed_place(alloc, p)?)
        }
        PlaceUse::ScratchpadOut(register, scalar, p) => {
            let access = Access {
                kind: AccessKind::Plain,
                scalar,
            };
            let Marked { mark, kind } = p;
            let kind = ValueKind::Read(access, Box::new(alloc, kind.kind)?);
            ValueKind::ScratchpadOut(register, Box::new(alloc, Value { mark, kind })?)
        }
    };
    Ok(ValueNode { kind })
}

/// The node of what is made of a place.
pub fn use_node(
    alloc: Global,
    item: ValueItem<PlaceUse<PlaceNode>>,
) -> Result<ValueItem<ValueNode>, AllocError>
    ensures { IfOk result (λ v. v ≡ value_with use_kind item) }
{
    let Marked { mark, kind } = item.value;
    let kind = use_kind(alloc, kind)?;
    Ok(ValueItem {
        ctype: item.ctype,
        number: item.number,
        own: item.own,
        value: Marked { mark, kind },
    })
}

fn taken_kind(alloc: Global, taken: Taken<PlaceNode>) -> Result<ValueNode, AllocError>
    ensures { IfOk result (λ k. k ≡ taken_kind taken) }
{
    let kind = match taken {
        Taken::Read(access, p) => ValueKind::Read(access, Box::new(alloc, p.kind)?),
        Taken::ArrayPointer(pointer, count, p) => {
            ValueKind::ArrayPointer(pointer, count, Box::new(alloc, p.kind)?)
        }
    };
    Ok(ValueNode { kind })
}

/// The node of what is taken from a place.
pub fn taken_node(
    alloc: Global,
    item: ValueItem<Taken<PlaceNode>>,
) -> Result<ValueItem<ValueNode>, AllocError>
    ensures { IfOk result (λ v. v ≡ value_with taken_kind item) }
{
    let Marked { mark, kind } = item.value;
    let kind = taken_kind(alloc, kind)?;
    Ok(ValueItem {
        ctype: item.ctype,
        number: item.number,
        own: item.own,
        value: Marked { mark, kind },
    })
}
