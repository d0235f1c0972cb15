//! Calls of intrinsics, with as many arguments as they take.

ghost use Rattle.std.specs.Prelude.{◌≡◌};
ghost use Rattle.cfault.specs.Fault.{noted};
ghost use Rattle.cexpr.specs.Intrinsic.{delay_of, delayed, halted, leftmost, leftmost_made};

use crate::ask::{at_node, integer};
use crate::assignment::written;
use crate::constants::word;
use crate::item::{IntegerItem, ValueItem};
use crate::node::Operation;
use crate::number::{arithmetic_part, void_type, widened};
use cfault::{Asked, Faults, judge};
use cprogram::Delay;
use csyn::{Cause, Mark, Sign};
use std::alloc::Global;

/// `__halt()`
pub fn halted<V: Drop>(alloc: Global, mark: Mark) -> ValueItem<Operation<V>>
    ensures { result ≡ halted mark }
{
    written(void_type(alloc), mark, Operation::Halt)
}

#[tactic(auto, using(crate::proofs::Delays::delays))]
fn delay_of(number: Option<u32>) -> Option<Delay>
    ensures { result ≡ delay_of number }
{
    let Some(cycles) = number else {
        return None;
    };
    if 1 <= cycles && cycles <= 1_000_000 {
        Some(Delay { cycles })
    } else {
        None
    }
}

/// `__delay_cycles(n)`
#[tactic(auto, unfolding(crate::specs::Intrinsic::delayed))]
pub fn delayed<V: Drop>(
    alloc: Global,
    mark: Mark,
    a: &Option<ValueItem<V>>,
    faults: &mut Faults,
) -> Option<ValueItem<Operation<V>>>
    ensures gives { result ≡ (delayed mark a.now).gives }
    ensures noted { faults.new ≡ noted (delayed mark a.now).faults faults.old }
{
    let asked = Asked::of(delay_of(word(a)));
    let delay = judge(at_node(mark, Cause::S14), asked, faults)?;
    Some(written(void_type(alloc), mark, Operation::Delay(delay)))
}

#[tactic(auto, unfolding(crate::specs::Intrinsic::leftmost_made))]
fn leftmost_made<V: Drop>(
    alloc: Global,
    mark: Mark,
    a: IntegerItem<V>,
    b: IntegerItem<V>,
) -> ValueItem<Operation<V>>
    ensures { result ≡ leftmost_made mark a b }
{
    let kind = Operation::LeftmostBit(widened(a), widened(b));
    arithmetic_part(alloc, Sign::Unsigned, None, mark, kind)
}

/// `__lmbd(a, b)`
#[tactic(auto, unfolding(crate::specs::Intrinsic::leftmost))]
pub fn leftmost<V: Drop>(
    alloc: Global,
    mark: Mark,
    a: Option<ValueItem<V>>,
    b: Option<ValueItem<V>>,
    faults: &mut Faults,
) -> Option<ValueItem<Operation<V>>>
    ensures gives { result ≡ (leftmost mark a b).gives }
    ensures noted { faults.new ≡ noted (leftmost mark a b).faults faults.old }
{
    let asked = integer(a).and(integer(b));
    let (a, b) = judge(at_node(mark, Cause::S6), asked, faults)?;
    Some(leftmost_made(alloc, mark, a, b))
}
