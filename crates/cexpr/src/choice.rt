//! `a ? b : c` and `a, b`

ghost use Rattle.std.specs.Prelude.{◌≡◌};
ghost use Rattle.cfault.specs.Fault.{noted};
ghost use Rattle.cexpr.specs.Conditional.{arms, asked_condition, chosen, chosen_number, comma, condition, conditional, conditional_made, integer_arms, other_arms};

use crate::ask::{at_node, scalar};
use crate::assignment::written;
use crate::item::{IntegerItem, OperandItem, ValueItem};
use crate::node::Operation;
use crate::number::{arithmetic_part, as_word, void_type, widened};
use crate::pair::{Pair, operand_part, paired};
use cfault::{Asked, Faults, judge};
use cprogram::{Conversion, Integer, Scalar};
use csyn::{Cause, Mark};
use ctypes::{CType, common};
use std::alloc::Global;

/// A condition, which is an integer or a pointer.
#[tactic(auto, unfolding(crate::specs::Conditional::condition))]
pub fn condition<V: Drop>(c: Option<ValueItem<V>>, faults: &mut Faults) -> Option<ValueItem<V>>
    ensures gives { result ≡ (condition c).gives }
    ensures noted { faults.new ≡ noted (condition c).faults faults.old }
{
    let Some(c) = c else {
        return None;
    };
    let mark = c.value.mark;
    judge(at_node(mark, Cause::S4), scalar(Some(c)), faults)
}

fn chosen_number(i: Integer, j: Integer, c: u32, a: u32, b: u32) -> u32
    ensures { result ≡ chosen_number i j c a b }
{
    if c == 0 { as_word(j, b) } else { as_word(i, a) }
}

fn chosen(i: Integer, j: Integer, c: Option<u32>, a: Option<u32>, b: Option<u32>) -> Option<u32>
    ensures { result ≡ chosen i j c a b }
{
    match (c, a, b) {
        (Some(c), Some(a), Some(b)) => Some(chosen_number(i, j, c, a, b)),
        _ => None,
    }
}

#[tactic(auto, unfolding(crate::specs::Conditional::integer_arms))]
fn integer_arms<V: Drop>(
    alloc: Global,
    mark: Mark,
    c: ValueItem<V>,
    a: IntegerItem<V>,
    b: IntegerItem<V>,
) -> ValueItem<Operation<V>>
    ensures { result ≡ integer_arms mark c a b }
{
    let sign = common(a.integer, b.integer);
    let number = chosen(a.integer, b.integer, c.number, a.number, b.number);
    let scalar = Some(Scalar::arithmetic(sign));
    let kind = Operation::Conditional(scalar, c.value, widened(a), widened(b));
    arithmetic_part(alloc, sign, number, mark, kind)
}

#[tactic(auto, unfolding(crate::specs::Conditional::other_arms))]
fn other_arms<V: Drop>(
    mark: Mark,
    c: ValueItem<V>,
    ctype: CType,
    a: OperandItem<V>,
    b: OperandItem<V>,
) -> ValueItem<Operation<V>>
    ensures { result ≡ other_arms mark c ctype a b }
{
    let scalar = ctype.scalar();
    written(ctype, mark, Operation::Conditional(scalar, c.value, a, b))
}

fn conditional_made<V: Drop>(
    alloc: Global,
    mark: Mark,
    c: ValueItem<V>,
    pair: Pair<V>,
) -> ValueItem<Operation<V>>
    ensures { result ≡ conditional_made mark c pair }
{
    match pair {
        Pair::Integers(a, b) => integer_arms(alloc, mark, c, a, b),
        Pair::Pointers(ctype, a, b) => other_arms(mark, c, ctype, a, b),
        Pair::Voids(a, b) => {
            let (a, b) = (
                operand_part(a, Conversion::Same),
                operand_part(b, Conversion::Same),
            );
            other_arms(mark, c, void_type(alloc), a, b)
        }
    }
}

fn asked_condition<V: Drop>(c: Option<ValueItem<V>>) -> Asked<ValueItem<V>>
    ensures { result ≡ asked_condition c }
{
    match c {
        None => Asked::Unsaid,
        Some(c) => Asked::Yes(c),
    }
}

fn arms<V: Drop>(
    alloc: Global,
    mark: Mark,
    c: Option<ValueItem<V>>,
    a: Option<ValueItem<V>>,
    b: Option<ValueItem<V>>,
    faults: &mut Faults,
) -> Option<ValueItem<Operation<V>>>
    ensures gives { result ≡ (arms mark c a b).gives }
    ensures noted { faults.new ≡ noted (arms mark c a b).faults faults.old }
{
    let asked = asked_condition(c).and(paired(a, b));
    let (c, pair) = judge(at_node(mark, Cause::S4), asked, faults)?;
    Some(conditional_made(alloc, mark, c, pair))
}

/// `c ? a : b`
#[tactic(auto, using(cfault::proofs::Least::noted_append), unfolding(crate::specs::Conditional::conditional))]
pub fn conditional<V: Drop>(
    alloc: Global,
    mark: Mark,
    c: Option<ValueItem<V>>,
    a: Option<ValueItem<V>>,
    b: Option<ValueItem<V>>,
    faults: &mut Faults,
) -> Option<ValueItem<Operation<V>>>
    ensures gives { result ≡ (conditional mark c a b).gives }
    ensures noted { faults.new ≡ noted (conditional mark c a b).faults faults.old }
{
    let c = condition(c, faults);
    arms(alloc, mark, c, a, b, faults)
}

/// `a, b`
#[tactic(auto, unfolding(crate::specs::Conditional::comma))]
pub fn comma<V: Drop>(
    mark: Mark,
    a: Option<ValueItem<V>>,
    b: Option<ValueItem<V>>,
) -> Option<ValueItem<Operation<V>>>
    ensures { result ≡ comma mark a b }
{
    let Some(a) = a else {
        return None;
    };
    let Some(b) = b else {
        return None;
    };
    let scalar = b.ctype.scalar();
    Some(written(b.ctype, mark, Operation::Comma(scalar, a.value, b.value)))
}
