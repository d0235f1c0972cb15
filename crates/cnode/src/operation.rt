//! What is made of values.

ghost use Rattle.std.specs.Prelude.{◌≡◌, IfOk};
ghost use Rattle.cprogram.specs.Value.{unused_kind};
ghost use Rattle.cnode.specs.Made.{constant_kind, operation_kind, value_with};

use crate::boxes::{boxed_operand, boxed_value};
use crate::kind::ValueNode;
use cexpr::{Constant, Marked, Operation, ValueItem};
use cprogram::ValueKind;
use std::alloc::{AllocError, Global};

/// A constant's node.
pub fn constant_node(item: ValueItem<Constant>) -> ValueItem<ValueNode>
    ensures { result ≡ value_with constant_kind item }
{
    let Constant { number, sign } = item.value.kind;
    ValueItem {
        ctype: item.ctype,
        number: item.number,
        own: item.own,
        value: Marked {
            mark: item.value.mark,
            kind: ValueNode {
                kind: ValueKind::Number(number, sign),
            },
        },
    }
}

// A value that nothing takes: the result of a call is unused there.
#[tactic(auto, using(crate::proofs::Bareness::bare_unused))]
fn unused(a: Marked<ValueNode>) -> Marked<ValueNode>
    ensures { result ≡ record { mark = a.mark; kind = unused_kind a.kind } }
{
    Marked {
        mark: a.mark,
        kind: ValueNode {
            kind: a.kind.kind.unused(),
        },
    }
}

fn operation_kind(alloc: Global, operation: Operation<ValueNode>) -> Result<ValueNode, AllocError>
    ensures { IfOk result (λ k. k ≡ operation_kind operation) }
{
    let kind = match operation {
        Operation::Cast(scalar, a) => ValueKind::Cast(scalar, boxed_operand(alloc, a)?),
        Operation::Unary(operator, sign, a) => {
            ValueKind::Unary(operator, sign, boxed_operand(alloc, a)?)
        }
        Operation::Not(a) => ValueKind::Not(boxed_value(alloc, a)?),
        Operation::Binary(operator, sign, a, b) => {
            let a = boxed_operand(alloc, a)?;
            ValueKind::Binary(operator, sign, a, boxed_operand(alloc, b)?)
        }
        Operation::Comparison(operator, sign, a, b) => {
            let a = boxed_operand(alloc, a)?;
            ValueKind::Comparison(operator, sign, a, boxed_operand(alloc, b)?)
        }
        Operation::PointerComparison(operator, a, b) => {
            let a = boxed_operand(alloc, a)?;
            ValueKind::PointerComparison(operator, a, boxed_operand(alloc, b)?)
        }
        Operation::Logical(operator, a, b) => {
            let a = boxed_value(alloc, a)?;
            ValueKind::Logical(operator, a, boxed_value(alloc, b)?)
        }
        Operation::Conditional(scalar, c, a, b) => {
            let c = boxed_value(alloc, c)?;
            let a = boxed_operand(alloc, a)?;
            ValueKind::Conditional(scalar, c, a, boxed_operand(alloc, b)?)
        }
        Operation::Comma(scalar, a, b) => {
            let a = boxed_value(alloc, unused(a))?;
            ValueKind::Comma(scalar, a, boxed_value(alloc, b)?)
        }
        Operation::PointerOffset(direction, pointer, a, sign, i) => {
            let a = boxed_value(alloc, a)?;
            ValueKind::PointerOffset(direction, pointer, a, sign, boxed_operand(alloc, i)?)
        }
        Operation::IndexPlusPointer(pointer, sign, i, a) => {
            let i = boxed_operand(alloc, i)?;
            ValueKind::IndexPlusPointer(pointer, sign, i, boxed_value(alloc, a)?)
        }
        Operation::PointerDifference(pointer, a, b) => {
            let a = boxed_value(alloc, a)?;
            ValueKind::PointerDifference(pointer, a, boxed_value(alloc, b)?)
        }
        Operation::LeftmostBit(a, b) => {
            let a = boxed_operand(alloc, a)?;
            ValueKind::LeftmostBit(a, boxed_operand(alloc, b)?)
        }
        Operation::Delay(delay) => ValueKind::Delay(delay),
        Operation::Halt => ValueKind::Halt,
    };
    Ok(ValueNode { kind })
}

/// The node of what is made of values.
pub fn operation_node(
    alloc: Global,
    item: ValueItem<Operation<ValueNode>>,
) -> Result<ValueItem<ValueNode>, AllocError>
    ensures { IfOk result (λ v. v ≡ value_with operation_kind item) }
{
    let Marked { mark, kind } = item.value;
    let kind = operation_kind(alloc, kind)?;
    Ok(ValueItem {
        ctype: item.ctype,
        number: item.number,
        own: item.own,
        value: Marked { mark, kind },
    })
}
