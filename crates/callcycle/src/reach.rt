//! Which functions a function reaches by calls.

ghost use Rattle.std.specs.Prelude.{IfOk, OnOk};
ghost use Rattle.callcycle.specs.Search.{IsTaken, AreTaken, AreReached};

use crate::call::{Call, calls_of};
use std::alloc::{AllocError, Global};

// Marks a function that wasn't, and has its calls wait.
fn take(
    function: usize,
    reached: &mut Vec<bool>,
    waiting: &mut Vec<usize>,
) -> Result<(), AllocError>
    ensures { OnOk result (IsTaken function reached.old.items reached.new.items waiting.old.items waiting.new.items) }
{
    if function < reached.len() && !reached[function] {
        reached[function] = true;
        waiting.push(function)?;
    }
    Ok(())
}

fn take_callees(
    calls: &[Call],
    reached: &mut Vec<bool>,
    waiting: &mut Vec<usize>,
) -> Result<(), AllocError>
    ensures { OnOk result (AreTaken calls.now reached.old.items reached.new.items waiting.old.items waiting.new.items) }
{
    for call in calls {
        take(call.callee as usize, reached, waiting)?;
    }
    Ok(())
}

/// Which functions this one reaches by calls, itself among them.
pub fn reached_from(
    alloc: Global,
    functions: &[Vec<Call>],
    from: usize,
) -> Result<Vec<bool>, AllocError>
    ensures { IfOk result (λ reached. AreReached functions.now from reached.items) }
{
    let mut reached = vec![in alloc; false; functions.len()]?;
    let mut waiting = Vec::new(alloc);
    take(from, &mut reached, &mut waiting)?;
    while let Some(function) = waiting.pop() {
        take_callees(calls_of(functions, function), &mut reached, &mut waiting)?;
    }
    Ok(reached)
}
