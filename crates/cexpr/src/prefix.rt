//! Numbers and characters, and operators on one value.

ghost use Rattle.std.specs.Prelude.{◌≡◌};
ghost use Rattle.cfault.specs.Fault.{noted};
ghost use Rattle.cexpr.specs.Number.{folded_one};
ghost use Rattle.cexpr.specs.Unary.{constant, negated, not_made, not_number, unary, unary_made, unary_number};

use crate::ask::{at_node, integer, scalar};
use crate::item::{IntegerItem, ValueItem};
use crate::node::{Constant, Operation};
use crate::number::{arithmetic_part, as_word, widened};
use cfault::{Faults, judge};
use cprogram::{Integer, UnaryOperator};
use csyn::{Cause, Mark, Sign};
use ctypes::promoted;
use std::alloc::Global;

/// A constant of this value: a number, a character, or what a `sizeof` tells.
#[tactic(auto, unfolding(crate::specs::Unary::constant))]
pub fn constant(alloc: Global, mark: Mark, number: u32, sign: Sign) -> ValueItem<Constant>
    ensures { result ≡ constant mark number sign }
{
    arithmetic_part(alloc, sign, Some(number), mark, Constant { number, sign })
}

fn folded_unary(operator: UnaryOperator, integer: Integer, number: Option<u32>) -> Option<u32>
    ensures { result ≡ folded_one (unary_number operator integer) number }
{
    match number {
        Some(a) => Some(cprogram::unary(operator, as_word(integer, a))),
        None => None,
    }
}

#[tactic(auto, unfolding(crate::specs::Unary::unary_made))]
fn unary_made<V: Drop>(
    alloc: Global,
    mark: Mark,
    operator: UnaryOperator,
    a: IntegerItem<V>,
) -> ValueItem<Operation<V>>
    ensures { result ≡ unary_made mark operator a }
{
    let sign = promoted(a.integer);
    let number = folded_unary(operator, a.integer, a.number);
    let kind = Operation::Unary(operator, sign, widened(a));
    arithmetic_part(alloc, sign, number, mark, kind)
}

/// `+a`, `-a` or `~a`.
#[tactic(auto, unfolding(crate::specs::Unary::unary))]
pub fn unary<V: Drop>(
    alloc: Global,
    mark: Mark,
    operator: UnaryOperator,
    a: Option<ValueItem<V>>,
    faults: &mut Faults,
) -> Option<ValueItem<Operation<V>>>
    ensures gives { result ≡ (unary mark operator a).gives }
    ensures noted { faults.new ≡ noted (unary mark operator a).faults faults.old }
{
    let a = judge(at_node(mark, Cause::S4), integer(a), faults)?;
    Some(unary_made(alloc, mark, operator, a))
}

fn not_number(a: u32) -> u32
    ensures { result ≡ not_number a }
{
    if a == 0 { 1 } else { 0 }
}

fn folded_not(number: Option<u32>) -> Option<u32>
    ensures { result ≡ folded_one not_number number }
{
    match number {
        Some(a) => Some(not_number(a)),
        None => None,
    }
}

#[tactic(auto, unfolding(crate::specs::Unary::not_made))]
fn not_made<V: Drop>(alloc: Global, mark: Mark, a: ValueItem<V>) -> ValueItem<Operation<V>>
    ensures { result ≡ not_made mark a }
{
    let number = folded_not(a.number);
    arithmetic_part(alloc, Sign::Signed, number, mark, Operation::Not(a.value))
}

/// `!a`
#[tactic(auto, unfolding(crate::specs::Unary::negated))]
pub fn negated<V: Drop>(
    alloc: Global,
    mark: Mark,
    a: Option<ValueItem<V>>,
    faults: &mut Faults,
) -> Option<ValueItem<Operation<V>>>
    ensures gives { result ≡ (negated mark a).gives }
    ensures noted { faults.new ≡ noted (negated mark a).faults faults.old }
{
    let a = judge(at_node(mark, Cause::S4), scalar(a), faults)?;
    Some(not_made(alloc, mark, a))
}
