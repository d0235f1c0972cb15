//! Comparisons.

ghost use Rattle.std.specs.Prelude.{◌≡◌};
ghost use Rattle.cfault.specs.Fault.{noted};
ghost use Rattle.cexpr.specs.Ask.{asked_then};
ghost use Rattle.cexpr.specs.Compare.{as_compared, comparison, comparison_made, comparison_number, integers_compared, pointers_compared};
ghost use Rattle.cexpr.specs.Number.{folded};

use crate::ask::at_node;
use crate::item::{IntegerItem, OperandItem, ValueItem};
use crate::node::Operation;
use crate::number::{arithmetic_part, as_word, widened};
use crate::pair::{Pair, paired};
use cfault::{Asked, Faults, judge};
use cprogram::{Integer, compare};
use csyn::{Cause, ComparisonOperator, Mark, Sign};
use ctypes::common;
use std::alloc::Global;

/// Two values that compare.
#[derive(Drop)]
pub enum Compared<V> {
    Integers(IntegerItem<V>, IntegerItem<V>),
    Pointers(OperandItem<V>, OperandItem<V>),
}

fn comparison_number(operator: ComparisonOperator, i: Integer, j: Integer, a: u32, b: u32) -> u32
    ensures { result ≡ comparison_number operator i j a b }
{
    if compare(operator, common(i, j), as_word(i, a), as_word(j, b)) {
        1
    } else {
        0
    }
}

fn folded_comparison(
    operator: ComparisonOperator,
    i: Integer,
    j: Integer,
    a: Option<u32>,
    b: Option<u32>,
) -> Option<u32>
    ensures { result ≡ folded (comparison_number operator i j) a b }
{
    match (a, b) {
        (Some(a), Some(b)) => Some(comparison_number(operator, i, j, a, b)),
        _ => None,
    }
}

#[tactic(auto, unfolding(crate::specs::Compare::integers_compared))]
fn integers_compared<V: Drop>(
    alloc: Global,
    mark: Mark,
    operator: ComparisonOperator,
    a: IntegerItem<V>,
    b: IntegerItem<V>,
) -> ValueItem<Operation<V>>
    ensures { result ≡ integers_compared mark operator a b }
{
    let number = folded_comparison(operator, a.integer, b.integer, a.number, b.number);
    let sign = common(a.integer, b.integer);
    let kind = Operation::Comparison(operator, sign, widened(a), widened(b));
    arithmetic_part(alloc, Sign::Signed, number, mark, kind)
}

#[tactic(auto, unfolding(crate::specs::Compare::pointers_compared))]
fn pointers_compared<V: Drop>(
    alloc: Global,
    mark: Mark,
    operator: ComparisonOperator,
    a: OperandItem<V>,
    b: OperandItem<V>,
) -> ValueItem<Operation<V>>
    ensures { result ≡ pointers_compared mark operator a b }
{
    let kind = Operation::PointerComparison(operator, a, b);
    arithmetic_part(alloc, Sign::Signed, None, mark, kind)
}

fn as_compared<V: Drop>(pair: Asked<Pair<V>>) -> Asked<Compared<V>>
    ensures { result ≡ asked_then as_compared pair }
{
    match pair {
        Asked::Unsaid => Asked::Unsaid,
        Asked::No => Asked::No,
        Asked::Yes(Pair::Integers(a, b)) => Asked::Yes(Compared::Integers(a, b)),
        Asked::Yes(Pair::Pointers(_, a, b)) => Asked::Yes(Compared::Pointers(a, b)),
        Asked::Yes(Pair::Voids(_, _)) => Asked::No,
    }
}

fn comparison_made<V: Drop>(
    alloc: Global,
    mark: Mark,
    operator: ComparisonOperator,
    compared: Compared<V>,
) -> ValueItem<Operation<V>>
    ensures { result ≡ comparison_made mark operator compared }
{
    match compared {
        Compared::Integers(a, b) => integers_compared(alloc, mark, operator, a, b),
        Compared::Pointers(a, b) => pointers_compared(alloc, mark, operator, a, b),
    }
}

/// `a < b` and its like, and `a == b` and `a != b`.
#[tactic(auto, unfolding(crate::specs::Compare::comparison))]
pub fn comparison<V: Drop>(
    alloc: Global,
    mark: Mark,
    operator: ComparisonOperator,
    a: Option<ValueItem<V>>,
    b: Option<ValueItem<V>>,
    faults: &mut Faults,
) -> Option<ValueItem<Operation<V>>>
    ensures gives { result ≡ (comparison mark operator a b).gives }
    ensures noted { faults.new ≡ noted (comparison mark operator a b).faults faults.old }
{
    let asked = as_compared(paired(a, b));
    let compared = judge(at_node(mark, Cause::S4), asked, faults)?;
    Some(comparison_made(alloc, mark, operator, compared))
}
