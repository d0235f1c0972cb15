//! Constants, where the language wants one.

ghost use Rattle.std.specs.Prelude.{◌≡◌};
ghost use Rattle.cfault.specs.Asked.{asked_of};
ghost use Rattle.cfault.specs.Fault.{noted};
ghost use Rattle.cexpr.specs.Constant.{array_length, case_number, length_of, wanted, within, word};

use crate::ask::at_node;
use crate::item::ValueItem;
use crate::number::word_of;
use cfault::{Asked, Faults, judge};
use cprogram::Scalar;
use csyn::{Cause, Mark};

/// The most elements of an array.
pub const MAX_LENGTH: u32 = 4096;

/// The number of a constant of an integer type, widened to four bytes.
#[tactic(auto, unfolding(crate::specs::Constant::word))]
pub fn word<V>(item: &Option<ValueItem<V>>) -> Option<u32>
    ensures { result ≡ word item.now }
{
    let Some(item) = item else {
        return None;
    };
    match item.ctype.scalar() {
        Some(Scalar::Integer(integer)) => word_of(integer, item.number),
        _ => None,
    }
}

/// A constant, where the rule of this cause wants one.
#[tactic(auto, unfolding(crate::specs::Constant::wanted))]
pub fn wanted<V>(
    mark: Mark,
    cause: Cause,
    item: &Option<ValueItem<V>>,
    faults: &mut Faults,
) -> Option<u32>
    ensures gives { result ≡ (wanted mark cause item.now).gives }
    ensures noted { faults.new ≡ noted (wanted mark cause item.now).faults faults.old }
{
    judge(at_node(mark, cause), Asked::of(word(item)), faults)
}

fn in_length(number: Option<u32>) -> Asked<u32>
    ensures { result ≡ asked_of number (within 1 4096) }
{
    let Some(n) = number else {
        return Asked::Unsaid;
    };
    if 1 <= n && n <= MAX_LENGTH {
        Asked::Yes(n)
    } else {
        Asked::No
    }
}

fn length_of(mark: Mark, number: Option<u32>, faults: &mut Faults) -> Option<u32>
    ensures gives { result ≡ (length_of mark number).gives }
    ensures noted { faults.new ≡ noted (length_of mark number).faults faults.old }
{
    judge(at_node(mark, Cause::S8), in_length(number), faults)
}

/// An array's length.
#[tactic(auto, using(cfault::proofs::Least::noted_append), unfolding(crate::specs::Constant::array_length))]
pub fn array_length<V>(mark: Mark, item: &Option<ValueItem<V>>, faults: &mut Faults) -> Option<u32>
    ensures gives { result ≡ (array_length mark item.now).gives }
    ensures noted { faults.new ≡ noted (array_length mark item.now).faults faults.old }
{
    let number = wanted(mark, Cause::S7, item, faults);
    length_of(mark, number, faults)
}

/// The constant of a `case`.
pub fn case_number<V>(mark: Mark, item: &Option<ValueItem<V>>, faults: &mut Faults) -> Option<u32>
    ensures gives { result ≡ (case_number mark item.now).gives }
    ensures noted { faults.new ≡ noted (case_number mark item.now).faults faults.old }
{
    wanted(mark, Cause::S23, item, faults)
}
