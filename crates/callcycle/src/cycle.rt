//! The first call that stands in a cycle.

ghost use Rattle.std.specs.Prelude.{◌≡◌, ◌↔◌, [], ◌∷◌, IsTrue, IfOk, MatchOption, Contains};
ghost use Rattle.callcycle.specs.Calls.{calls_of, InCycle, HasNoCycle, IsFirst};
ghost use Rattle.callcycle.specs.Search.{NeverRises, IsFound, Covers, IsNoted};

use crate::call::{Call, calls_of, is_up_to};
use crate::component::{falling_numbers, number_of};
use crate::reach::reached_from;
use csyn::Span;
use std::alloc::{AllocError, Global};

// Whether a function's call stands in a cycle. Only where no number falls are the functions searched.
fn is_in_cycle(
    alloc: Global,
    functions: &[Vec<Call>],
    numbers: &[usize],
    caller: usize,
    call: &Call,
) -> Result<bool, AllocError>
    requires falling { NeverRises functions.now numbers.now }
    requires is { Contains (calls_of functions.now caller) call.now }
    ensures { IfOk result (λ found. IsTrue found ↔ InCycle functions.now caller call.now) }
{
    let callee = call.callee as usize;
    if number_of(numbers, callee) < number_of(numbers, caller) {
        return Ok(false);
    }
    let reached = reached_from(alloc, functions, callee)?;
    Ok(reached[caller])
}

fn is_later(least: Option<Span>, place: Span) -> bool
    ensures { IsTrue result ↔ Covers least place }
{
    match least {
        None => false,
        Some(least) => is_up_to(least, place),
    }
}

// The first of what was found and one more call, if that stands in a cycle.
fn note(
    alloc: Global,
    functions: &[Vec<Call>],
    numbers: &[usize],
    caller: usize,
    call: &Call,
    least: Option<Span>,
) -> Result<Option<Span>, AllocError>
    requires falling { NeverRises functions.now numbers.now }
    requires is { Contains (calls_of functions.now caller) call.now }
    requires found { IsFound functions.now least }
    ensures { IfOk result (IsNoted functions.now caller (call.now ∷ []) least) }
{
    if is_later(least, call.place) {
        return Ok(least);
    }
    let found = is_in_cycle(alloc, functions, numbers, caller, call)?;
    if found {
        return Ok(Some(call.place));
    }
    Ok(least)
}

fn note_all(
    alloc: Global,
    functions: &[Vec<Call>],
    numbers: &[usize],
    caller: usize,
    calls: &[Call],
    least: Option<Span>,
) -> Result<Option<Span>, AllocError>
    requires falling { NeverRises functions.now numbers.now }
    requires are { calls.now ≡ calls_of functions.now caller }
    requires found { IsFound functions.now least }
    ensures { IfOk result (IsNoted functions.now caller calls.now least) }
{
    let mut least = least;
    for call in calls {
        least = note(alloc, functions, numbers, caller, call, least)?;
    }
    Ok(least)
}

// The caller and the place of the first call between functions of one number.
fn guess(functions: &[Vec<Call>], numbers: &[usize]) -> Option<(usize, Span)> {
    let mut least = None;
    let mut at = None;
    for (caller, calls) in functions.iter().enumerate() {
        let number = number_of(numbers, caller);
        for call in calls {
            if number_of(numbers, call.callee as usize) == number && !is_later(least, call.place) {
                least = Some(call.place);
                at = Some((caller, call.place));
            }
        }
    }
    at
}

// What is found of a function's calls at one place.
fn note_place(
    alloc: Global,
    functions: &[Vec<Call>],
    numbers: &[usize],
    caller: usize,
    calls: &[Call],
    place: Span,
) -> Result<Option<Span>, AllocError>
    requires falling { NeverRises functions.now numbers.now }
    requires are { calls.now ≡ calls_of functions.now caller }
    ensures { IfOk result (IsFound functions.now) }
{
    for call in calls {
        if call.place == place {
            let found = note(alloc, functions, numbers, caller, call, None)?;
            return Ok(found);
        }
    }
    Ok(None)
}

// What the guess finds: where it is right, no other call needs a search.
fn guessed(
    alloc: Global,
    functions: &[Vec<Call>],
    numbers: &[usize],
) -> Result<Option<Span>, AllocError>
    requires { NeverRises functions.now numbers.now }
    ensures { IfOk result (IsFound functions.now) }
{
    let Some((caller, place)) = guess(functions, numbers) else {
        return Ok(None);
    };
    let calls = calls_of(functions, caller);
    note_place(alloc, functions, numbers, caller, calls, place)
}

/// The place of the first call in the source that stands in a cycle: its callee is its caller or reaches it by calls. `functions` has
/// the calls in each function, by the functions' numbers.
pub fn first_in_cycle(alloc: Global, functions: &[Vec<Call>]) -> Result<Option<Span>, AllocError>
    ensures { IfOk result (λ found. MatchOption found (HasNoCycle functions.now) (IsFirst functions.now)) }
{
    let numbers = falling_numbers(alloc, functions)?;
    let mut least = guessed(alloc, functions, &numbers)?;
    for caller in 0..functions.len() {
        let calls = calls_of(functions, caller);
        least = note_all(alloc, functions, &numbers, caller, calls, least)?;
    }
    Ok(least)
}
