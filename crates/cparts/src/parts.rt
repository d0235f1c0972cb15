//! The values of a production's parts, taken in order.
ghost use Rattle.std.specs.Prelude.{◌≡◌, List, Option, None, Some, IfOk, MatchResult};
ghost use Rattle.cparts.specs.Value.{bare_values};
ghost use Rattle.cparts.specs.Parts as specs;
ghost use Rattle.cparts.specs.declared.value.Value.{Value};
ghost use Rattle.cparts.specs.declared.fault.MakeFault.TheVariants as fault;

use crate::fault::MakeFault;
use crate::part::FromValue;
use crate::value::Value;
use std::alloc::{AllocError, Global};
use std::collections::LinkedList;

/// The first value, as what it holds of the kind that is asked for. It is taken away in any case.
#[tactic(auto, unfolding(crate::specs::Parts::pick))]
fn first_as<P: FromValue>(alloc: Global, values: &mut LinkedList<Value>) -> Result<P, MakeFault>
    ensures { MatchResult result
        (λ x. (go_on : P → List Value → Option Value)
        → specs.pick P.kind go_on (bare_values values.old) ≡ go_on (P.bare x) (bare_values values.new))
        (λ e. e ≡ fault.Parts → (go_on : P → List Value → Option Value)
        → specs.pick P.kind go_on (bare_values values.old) ≡ None) }
{
    match values.pop_front() {
        Some(value) => P::from_value(alloc, value),
        None => Err(MakeFault::Parts),
    }
}

/// That no values are left. They are dropped.
fn end(values: LinkedList<Value>) -> Result<(), MakeFault>
    ensures { MatchResult result
        (λ _. (made : Option Value) → specs.only made (bare_values values) ≡ made)
        (λ e. (e ≡ fault.Parts) × ((made : Option Value) → specs.only made (bare_values values) ≡ None)) }
{
    if values.is_empty() {
        Ok(())
    } else {
        Err(MakeFault::Parts)
    }
}

/// No parts.
/// Err(Parts): there are some.
#[tactic(auto, unfolding(crate::specs::Parts::none))]
pub fn none(values: LinkedList<Value>) -> Result<(), MakeFault>
    ensures made { MatchResult result
        (λ _. (made : Value) → specs.none made (bare_values values) ≡ Some made)
        (λ e. (e ≡ fault.Parts) × ((made : Value) → specs.none made (bare_values values) ≡ None)) }
    ensures perhaps { MatchResult result
        (λ _. (made : Option Value) → specs.only made (bare_values values) ≡ made)
        (λ e. (e ≡ fault.Parts) × ((made : Option Value) → specs.only made (bare_values values) ≡ None)) }
{
    end(values)
}

/// The only part.
/// Err(Parts): there are none or more, or it is of another kind. All are dropped.
/// Err(Memory): no memory is left for a box, and all are dropped.
#[tactic(auto, unfolding(crate::specs::Parts::one, crate::specs::Parts::perhaps))]
pub fn one<A: FromValue>(alloc: Global, mut values: LinkedList<Value>) -> Result<A, MakeFault>
    ensures made { MatchResult result
        (λ x. (made : A → Value) → specs.one A.kind made (bare_values values) ≡ Some (made (A.bare x)))
        (λ e. e ≡ fault.Parts → (made : A → Value) → specs.one A.kind made (bare_values values) ≡ None) }
    ensures perhaps { MatchResult result
        (λ x. (made : A → Option Value) → specs.perhaps A.kind made (bare_values values) ≡ made (A.bare x))
        (λ e. e ≡ fault.Parts → (made : A → Option Value) → specs.perhaps A.kind made (bare_values values) ≡ None) }
{
    let first = first_as(alloc, &mut values)?;
    end(values)?;
    Ok(first)
}

/// The two parts.
/// Err(Parts): they are not two, or one is of another kind. All are dropped.
/// Err(Memory): no memory is left for a box, and all are dropped.
#[tactic(auto, unfolding(crate::specs::Parts::two))]
pub fn two<A: FromValue, B: FromValue>(
    alloc: Global,
    mut values: LinkedList<Value>,
) -> Result<(A, B), MakeFault>
    ensures { MatchResult result
        (λ x. (made : A → B → Value) → specs.two A.kind B.kind made (bare_values values) ≡ Some (made (A.bare x.0) (B.bare x.1)))
        (λ e. e ≡ fault.Parts → (made : A → B → Value) → specs.two A.kind B.kind made (bare_values values) ≡ None) }
{
    let first = first_as(alloc, &mut values)?;
    let second = one(alloc, values)?;
    Ok((first, second))
}

/// The three parts.
/// Err(Parts): they are not three, or one is of another kind. All are dropped.
/// Err(Memory): no memory is left for a box, and all are dropped.
#[tactic(auto, unfolding(crate::specs::Parts::three))]
pub fn three<A: FromValue, B: FromValue, C: FromValue>(
    alloc: Global,
    mut values: LinkedList<Value>,
) -> Result<(A, B, C), MakeFault>
    ensures { MatchResult result
        (λ x. (made : A → B → C → Value) → specs.three A.kind B.kind C.kind made (bare_values values)
        ≡ Some (made (A.bare x.0) (B.bare x.1) (C.bare x.2)))
        (λ e. e ≡ fault.Parts → (made : A → B → C → Value) → specs.three A.kind B.kind C.kind made (bare_values values) ≡ None) }
{
    let first = first_as(alloc, &mut values)?;
    let (second, third) = two(alloc, values)?;
    Ok((first, second, third))
}

/// The four parts.
/// Err(Parts): they are not four, or one is of another kind. All are dropped.
/// Err(Memory): no memory is left for a box, and all are dropped.
#[tactic(auto, unfolding(crate::specs::Parts::four))]
pub fn four<A: FromValue, B: FromValue, C: FromValue, D: FromValue>(
    alloc: Global,
    mut values: LinkedList<Value>,
) -> Result<(A, B, C, D), MakeFault>
    ensures { MatchResult result
        (λ x. (made : A → B → C → D → Value) → specs.four A.kind B.kind C.kind D.kind made (bare_values values)
        ≡ Some (made (A.bare x.0) (B.bare x.1) (C.bare x.2) (D.bare x.3)))
        (λ e. e ≡ fault.Parts → (made : A → B → C → D → Value) → specs.four A.kind B.kind C.kind D.kind made (bare_values values) ≡ None) }
{
    let first = first_as(alloc, &mut values)?;
    let (second, third, fourth) = three(alloc, values)?;
    Ok((first, second, third, fourth))
}

/// Two values in boxes. On failure both are dropped.
pub fn boxed_two<A: Drop, B: Drop>(
    alloc: Global,
    first: A,
    second: B,
) -> Result<(Box<A>, Box<B>), AllocError>
    ensures { IfOk result (λ boxes. (boxes.0.value ≡ first) × (boxes.1.value ≡ second)) }
{
    let first = Box::new(alloc, first)?;
    let second = Box::new(alloc, second)?;
    Ok((first, second))
}
