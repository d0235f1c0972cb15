//! Nodes in boxes, as those above hold them.

ghost use Rattle.std.specs.Prelude.{◌≡◌, IfOk};
ghost use Rattle.cnode.specs.Bare.{bare_kind, bare_place_kind};

use crate::kind::{PlaceNode, ValueNode};
use cexpr::{Marked, OperandItem};
use cprogram::{Operand, Place, Value};
use std::alloc::{AllocError, Global};

pub fn boxed_value(alloc: Global, a: Marked<ValueNode>) -> Result<Box<Value>, AllocError>
    ensures { IfOk result (λ v. (v.value.mark ≡ a.mark) × (bare_kind v.value.kind ≡ a.kind)) }
{
    let value = Value {
        mark: a.mark,
        kind: a.kind.kind,
    };
    let boxed = Box::new(alloc, value)?;
    Ok(boxed)
}

pub fn boxed_place(alloc: Global, p: Marked<PlaceNode>) -> Result<Box<Place>, AllocError>
    ensures { IfOk result (λ q. (q.value.mark ≡ p.mark) × (bare_place_kind q.value.kind ≡ p.kind)) }
{
    let place = Place {
        mark: p.mark,
        kind: p.kind.kind,
    };
    let boxed = Box::new(alloc, place)?;
    Ok(boxed)
}

pub fn boxed_operand(alloc: Global, a: OperandItem<ValueNode>) -> Result<Box<Operand>, AllocError>
    ensures { IfOk result (λ o. (o.value.conversion ≡ a.conversion) × ((o.value.value.mark ≡ a.value.mark) × (bare_kind o.value.value.kind ≡ a.value.kind))) }
{
    let OperandItem { conversion, value } = a;
    let Marked { mark, kind } = value;
    let value = Value {
        mark,
        kind: kind.kind,
    };
    let boxed = Box::new(alloc, Operand { conversion, value })?;
    Ok(boxed)
}
