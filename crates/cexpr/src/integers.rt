//! Operators between two integers.

ghost use Rattle.std.specs.Prelude.{◌≡◌};
ghost use Rattle.cfault.specs.Fault.{noted};
ghost use Rattle.cexpr.specs.Binary.{binary, binary_number, combined, operator_sign};
ghost use Rattle.cexpr.specs.Number.{folded};

use crate::ask::{at_node, integer};
use crate::item::{IntegerItem, ValueItem};
use crate::node::Operation;
use crate::number::{arithmetic_part, as_word, widened};
use cfault::{Faults, judge};
use cprogram::Integer;
use csyn::{BinaryOperator, Cause, Mark, Sign};
use ctypes::{common, promoted};
use std::alloc::Global;

/// The sign of the operation.
pub fn operator_sign(operator: BinaryOperator, i: Integer, j: Integer) -> Sign
    ensures { result ≡ operator_sign operator i j }
{
    match operator {
        BinaryOperator::ShiftLeft | BinaryOperator::ShiftRight => promoted(i),
        _ => common(i, j),
    }
}

// The number of two constants, each of its type.
fn folded(
    operator: BinaryOperator,
    i: Integer,
    j: Integer,
    a: Option<u32>,
    b: Option<u32>,
) -> Option<u32>
    ensures { result ≡ folded (binary_number operator i j) a b }
{
    let sign = operator_sign(operator, i, j);
    match (a, b) {
        (Some(a), Some(b)) => Some(cprogram::binary(operator, sign, as_word(i, a), as_word(j, b))),
        _ => None,
    }
}

#[tactic(auto, unfolding(crate::specs::Binary::combined))]
pub fn combined<V: Drop>(
    alloc: Global,
    mark: Mark,
    operator: BinaryOperator,
    a: IntegerItem<V>,
    b: IntegerItem<V>,
) -> ValueItem<Operation<V>>
    ensures { result ≡ combined mark operator a b }
{
    let sign = operator_sign(operator, a.integer, b.integer);
    let number = folded(operator, a.integer, b.integer, a.number, b.number);
    let kind = Operation::Binary(operator, sign, widened(a), widened(b));
    arithmetic_part(alloc, sign, number, mark, kind)
}

/// `a * b` and its like, of two integers.
#[tactic(auto, unfolding(crate::specs::Binary::binary))]
pub fn binary<V: Drop>(
    alloc: Global,
    mark: Mark,
    operator: BinaryOperator,
    a: Option<ValueItem<V>>,
    b: Option<ValueItem<V>>,
    faults: &mut Faults,
) -> Option<ValueItem<Operation<V>>>
    ensures gives { result ≡ (binary mark operator a b).gives }
    ensures noted { faults.new ≡ noted (binary mark operator a b).faults faults.old }
{
    let asked = integer(a).and(integer(b));
    let (a, b) = judge(at_node(mark, Cause::S4), asked, faults)?;
    Some(combined(alloc, mark, operator, a, b))
}
