//! `&&` and `||`.

ghost use Rattle.std.specs.Prelude.{◌≡◌};
ghost use Rattle.cfault.specs.Fault.{noted};
ghost use Rattle.cexpr.specs.Logical.{logical, logical_made, logical_number};
ghost use Rattle.cexpr.specs.Number.{folded};

use crate::ask::{at_node, scalar};
use crate::item::ValueItem;
use crate::node::Operation;
use crate::number::arithmetic_part;
use cfault::{Faults, judge};
use csyn::{Cause, LogicalOperator, Mark, Sign};
use std::alloc::Global;

fn logical_number(operator: LogicalOperator, a: u32, b: u32) -> u32
    ensures { result ≡ logical_number operator a b }
{
    match operator {
        LogicalOperator::And if a == 0 => 0,
        LogicalOperator::Or if a != 0 => 1,
        LogicalOperator::And | LogicalOperator::Or => { if b == 0 { 0 } else { 1 } }
    }
}

fn folded_logical(operator: LogicalOperator, a: Option<u32>, b: Option<u32>) -> Option<u32>
    ensures { result ≡ folded (logical_number operator) a b }
{
    match (a, b) {
        (Some(a), Some(b)) => Some(logical_number(operator, a, b)),
        _ => None,
    }
}

#[tactic(auto, unfolding(crate::specs::Logical::logical_made))]
fn logical_made<V: Drop>(
    alloc: Global,
    mark: Mark,
    operator: LogicalOperator,
    a: ValueItem<V>,
    b: ValueItem<V>,
) -> ValueItem<Operation<V>>
    ensures { result ≡ logical_made mark operator a b }
{
    let number = folded_logical(operator, a.number, b.number);
    let kind = Operation::Logical(operator, a.value, b.value);
    arithmetic_part(alloc, Sign::Signed, number, mark, kind)
}

/// `a && b` or `a || b`.
#[tactic(auto, unfolding(crate::specs::Logical::logical))]
pub fn logical<V: Drop>(
    alloc: Global,
    mark: Mark,
    operator: LogicalOperator,
    a: Option<ValueItem<V>>,
    b: Option<ValueItem<V>>,
    faults: &mut Faults,
) -> Option<ValueItem<Operation<V>>>
    ensures gives { result ≡ (logical mark operator a b).gives }
    ensures noted { faults.new ≡ noted (logical mark operator a b).faults faults.old }
{
    let asked = scalar(a).and(scalar(b));
    let (a, b) = judge(at_node(mark, Cause::S4), asked, faults)?;
    Some(logical_made(alloc, mark, operator, a, b))
}
