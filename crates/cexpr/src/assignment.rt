//! `=`

ghost use Rattle.std.specs.Prelude.{◌≡◌};
ghost use Rattle.cfault.specs.Fault.{noted};
ghost use Rattle.cexpr.specs.Assign.{access_of, as_operand, assign, assign_made, assign_to, assigned, implied_from, implied_to, is_zero, written};

use crate::ask::{at_node, target};
use crate::item::{Item, Marked, OperandItem, TargetItem, ValueItem};
use crate::node::Assignment;
use cfault::{Asked, Faults, judge};
use cprogram::{Access, Conversion};
use csyn::{Cause, Mark};
use ctypes::CType;

/// Whether it is the constant 0.
pub fn is_zero(number: Option<u32>) -> bool
    ensures { result ≡ is_zero number }
{
    match number {
        Some(n) => n == 0,
        None => false,
    }
}

fn as_operand<V: Drop>(value: ValueItem<V>, conversion: Option<Conversion>) -> Asked<OperandItem<V>>
    ensures { result ≡ as_operand value conversion }
{
    match conversion {
        Some(conversion) => Asked::Yes(OperandItem {
            conversion,
            value: value.value,
        }),
        None => Asked::No,
    }
}

/// What turns a value into one of a type without a cast.
pub fn implied_from<V>(value: &ValueItem<V>, to: &CType) -> Option<Conversion>
    ensures { result ≡ implied_from value.now to.now }
{
    value.ctype.implied(is_zero(value.number), to)
}

/// A value that converts to a type without a cast.
#[tactic(auto, unfolding(crate::specs::Assign::implied_to))]
pub fn implied_to<V: Drop>(to: &CType, value: ValueItem<V>) -> Asked<OperandItem<V>>
    ensures { result ≡ implied_to to.now value }
{
    let conversion = implied_from(&value, to);
    as_operand(value, conversion)
}

#[tactic(auto, unfolding(crate::specs::Assign::assigned))]
fn assigned<V: Drop, P: Drop>(
    t: Option<TargetItem<P>>,
    b: Option<ValueItem<V>>,
) -> Asked<(TargetItem<P>, OperandItem<V>)>
    ensures { result ≡ assigned t b }
{
    let Some(t) = t else {
        return Asked::Unsaid;
    };
    let Some(b) = b else {
        return Asked::Unsaid;
    };
    let b = implied_to(&t.ctype, b);
    Asked::Yes(t).and(b)
}

/// An access that reads or writes a target.
pub fn access_of<P>(t: &TargetItem<P>) -> Access
    ensures { result ≡ access_of t.now }
{
    Access {
        kind: t.reach,
        scalar: t.scalar,
    }
}

/// A value that is no constant.
pub fn written<N>(ctype: CType, mark: Mark, kind: N) -> ValueItem<N>
    ensures { result ≡ written ctype mark kind }
{
    ValueItem {
        ctype,
        number: None,
        own: None,
        value: Marked { mark, kind },
    }
}

#[tactic(auto, unfolding(crate::specs::Assign::assign_made))]
fn assign_made<V: Drop, P: Drop>(
    mark: Mark,
    t: TargetItem<P>,
    b: OperandItem<V>,
) -> ValueItem<Assignment<V, P>>
    ensures { result ≡ assign_made mark t b }
{
    let access = access_of(&t);
    written(t.ctype, mark, Assignment::Assign(access, t.place, b))
}

fn assign_to<V: Drop, P: Drop>(
    mark: Mark,
    t: Option<TargetItem<P>>,
    b: Option<ValueItem<V>>,
    faults: &mut Faults,
) -> Option<ValueItem<Assignment<V, P>>>
    ensures gives { result ≡ (assign_to mark t b).gives }
    ensures noted { faults.new ≡ noted (assign_to mark t b).faults faults.old }
{
    let (t, b) = judge(at_node(mark, Cause::S4), assigned(t, b), faults)?;
    Some(assign_made(mark, t, b))
}

/// `a = b`
#[tactic(auto, using(cfault::proofs::Least::noted_append), unfolding(crate::specs::Assign::assign))]
pub fn assign<V: Drop, P: Drop>(
    mark: Mark,
    a: Option<Item<V, P>>,
    b: Option<ValueItem<V>>,
    faults: &mut Faults,
) -> Option<ValueItem<Assignment<V, P>>>
    ensures gives { result ≡ (assign mark a b).gives }
    ensures noted { faults.new ≡ noted (assign mark a b).faults faults.old }
{
    let t = judge(at_node(mark, Cause::S5), target(a), faults);
    assign_to(mark, t, b, faults)
}
