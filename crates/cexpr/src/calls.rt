//! Calls of functions.

ghost use Rattle.std.specs.Prelude.{IfOk, OnOk, ◌≡◌};
ghost use Rattle.cfault.specs.Fault.{noted};
ghost use Rattle.cexpr.specs.Call.{argument, call_made, call_result, called, result_type, type_result};

use crate::ask::at_node;
use crate::assignment::{implied_to, written};
use crate::item::{OperandItem, ValueItem};
use crate::meaning::Signature;
use crate::node::Call;
use crate::number::void_type;
use cfault::{Asked, Faults, judge};
use cprogram::{CallResult, FunctionId, Scalar};
use csyn::{Cause, Mark};
use ctypes::CType;
use std::alloc::{AllocError, Global};

/// An argument, as its parameter wants it.
pub fn argument<V: Drop>(parameter: &CType, a: Option<ValueItem<V>>) -> Asked<OperandItem<V>>
    ensures { result ≡ argument parameter.now a }
{
    match a {
        None => Asked::Unsaid,
        Some(a) => implied_to(parameter, a),
    }
}

fn call_result(scalar: Option<Scalar>) -> CallResult
    ensures { result ≡ call_result scalar }
{
    match scalar {
        None => CallResult::Void,
        Some(scalar) => CallResult::Used(scalar),
    }
}

fn type_result(ctype: &Option<CType>) -> CallResult
    ensures { result ≡ type_result ctype.now }
{
    match ctype {
        None => CallResult::Void,
        Some(ctype) => call_result(ctype.scalar()),
    }
}

fn result_type(alloc: Global, ctype: &Option<CType>) -> Result<CType, AllocError>
    ensures { IfOk result (λ t. t ≡ result_type ctype.now) }
{
    match ctype {
        None => Ok(void_type(alloc)),
        Some(ctype) => {
            let ctype = ctype.copy(alloc)?;
            Ok(ctype)
        }
    }
}

fn call_made<A: Drop>(
    alloc: Global,
    mark: Mark,
    signature: &Signature,
    arguments: A,
    function: FunctionId,
) -> Result<ValueItem<Call<A>>, AllocError>
    ensures { IfOk result (λ v. v ≡ call_made mark signature.now arguments function) }
{
    let ctype = result_type(alloc, &signature.result)?;
    let call = Call {
        function,
        result: type_result(&signature.result),
        arguments,
    };
    Ok(written(ctype, mark, call))
}

/// `f(..)`, where the arguments are as many as there are parameters: otherwise they are asked for and not there.
#[tactic(auto, using(cfault::proofs::Least::noted_append), unfolding(crate::specs::Call::called))]
pub fn called<A: Drop>(
    alloc: Global,
    mark: Mark,
    signature: &Signature,
    arguments: Asked<A>,
    faults: &mut Faults,
) -> Result<Option<ValueItem<Call<A>>>, AllocError>
    ensures gives { IfOk result (λ v. v ≡ (called mark signature.now arguments).gives) }
    ensures noted { OnOk result (faults.new ≡ noted (called mark signature.now arguments).faults faults.old) }
{
    let arguments = judge(at_node(mark, Cause::S6), arguments, faults);
    let function = judge(
        at_node(mark, Cause::S18),
        Asked::of(signature.definition),
        faults,
    );
    let Some(arguments) = arguments else {
        return Ok(None);
    };
    let Some(function) = function else {
        return Ok(None);
    };
    let made = call_made(alloc, mark, signature, arguments, function)?;
    Ok(Some(made))
}
