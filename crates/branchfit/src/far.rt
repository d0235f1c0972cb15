//! Which branches are far.

ghost use Rattle.std.specs.Prelude.{◌≡◌, ℕ, ◌+◌, ◌<◌, ◌||◌, IfOk, false, length, replicate};
ghost use Rattle.branchfit.specs.Far.{width, first, others, numbers_from, numbers_of, number_in, is_beyond, is_branch, aims_beyond, is_out};
ghost use Rattle.branchfit.specs.Far.{AreFar};
ghost use Rattle.branchfit.specs.Steps.{grown_from, grown, one_near, near_count};

use crate::spot::{Reach, Spot};
use prunum::Memory;
use std::alloc::Global;

/// How many words an instruction takes.
pub fn width(reach: Reach, far: bool) -> usize
    ensures value { result ≡ width reach far }
    ensures bound { result < 3 }
{
    match reach {
        Reach::Conditional => { if far { 2 } else { 1 } }
        Reach::Anywhere | Reach::Always => 1,
    }
}

/// The first test, and the others; a list that is too short has only tests that fail.
fn take_first(far: &[bool]) -> (bool, &[bool])
    ensures first { result.0 ≡ first far.now }
    ensures others { result.1.now ≡ others far.now }
{
    match far.split_first() {
        Some((f, rest)) => (*f, rest),
        None => (false, far),
    }
}

#[tactic(auto, using(crate::proofs::StepLemmas::numbers_on, crate::proofs::StepLemmas::numbers_end))]
/// The number of each place's first word, and of the word behind the last place.
pub fn numbers_of(alloc: Global, spots: &[Spot], far: &[bool]) -> Result<Vec<usize>, Memory>
    ensures { IfOk result (λ numbers. numbers.items ≡ numbers_of spots.now far.now) }
{
    let mut numbers = Vec::new(alloc);
    let mut here = 0;
    let mut rest = spots;
    let mut tests = far;
    while let Some((spot, behind)) = rest.split_first() {
        let (is_far, later) = take_first(tests);
        numbers.push(here)?;
        let wide = width(spot.reach, is_far);
        here += wide;
        rest = behind;
        tests = later;
    }
    numbers.push(here)?;
    Ok(numbers)
}

/// The number of a place; no place is behind the last.
pub fn number_in(numbers: &[usize], place: usize) -> usize
    ensures { result ≡ number_in numbers.now place }
{
    let last = numbers.len().saturating_sub(1);
    numbers.get(place.min(last)).copied().unwrap_or(0)
}

fn is_beyond(here: usize, there: usize) -> bool
    ensures { result ≡ is_beyond here there }
{
    if there < here {
        here - there > 512
    } else {
        there - here > 511
    }
}

fn aims_beyond(numbers: &[usize], place: usize, aim: Option<usize>) -> bool
    ensures { result ≡ aims_beyond numbers.now place aim }
{
    match aim {
        Some(q) => is_beyond(number_in(numbers, place), number_in(numbers, q)),
        None => false,
    }
}

fn is_branch(reach: Reach) -> bool
    ensures { result ≡ is_branch reach }
{
    match reach {
        Reach::Anywhere => false,
        Reach::Always | Reach::Conditional => true,
    }
}

/// Whether it is a branch that goes further than its word tells.
fn is_out(numbers: &[usize], place: usize, spot: &Spot) -> bool
    ensures { result ≡ is_out numbers.now place spot.now }
{
    is_branch(spot.reach) && aims_beyond(numbers, place, spot.aim)
}

#[tactic(auto, using(crate::proofs::StepLemmas::grown_on, crate::proofs::StepLemmas::grown_end))]
fn is_in(is_far: bool, numbers: &[usize], place: usize, spot: &Spot) -> bool
    ensures { result ≡ (is_far || is_out numbers.now place spot.now) }
{
    is_far || is_out(numbers, place, spot)
}

/// The set, with the branches that go further.
fn grown_by(
    alloc: Global,
    numbers: &[usize],
    spots: &[Spot],
    far: &[bool],
) -> Result<Vec<bool>, Memory>
    ensures { IfOk result (λ more. more.items ≡ grown_from numbers.now 0 spots.now far.now) }
{
    let mut more = Vec::new(alloc);
    let mut place = 0;
    let mut rest = spots;
    let mut tests = far;
    while let Some((spot, behind)) = rest.split_first() {
        let (is_far, later) = take_first(tests);
        let comes_in = is_in(is_far, numbers, place, spot);
        more.push(comes_in)?;
        place += 1;
        rest = behind;
        tests = later;
    }
    Ok(more)
}

fn grown(alloc: Global, spots: &[Spot], far: &[bool]) -> Result<Vec<bool>, Memory>
    ensures { IfOk result (λ more. more.items ≡ grown spots.now far.now) }
{
    let numbers = numbers_of(alloc, spots, far)?;
    grown_by(alloc, &numbers, spots, far)
}

fn none_of(alloc: Global, spots: &[Spot]) -> Result<Vec<bool>, Memory>
    ensures { IfOk result (λ far. far.items ≡ replicate (length spots.now) false) }
{
    let far = vec![in alloc; false; spots.len()]?;
    Ok(far)
}

#[tactic(auto, using(crate::proofs::StepLemmas::near_on, crate::proofs::StepLemmas::near_end))]
fn one_near(is_far: bool) -> usize
    ensures value { result ≡ one_near is_far }
    ensures bound { result < 2 }
{
    if is_far { 0 } else { 1 }
}

/// How many are not in the set.
fn near_count(far: &[bool]) -> usize
    ensures { result ≡ near_count far.now }
{
    let mut count = 0;
    let mut rest = far;
    while let Some((is_far, behind)) = rest.split_first() {
        let one = one_near(*is_far);
        count += one;
        rest = behind;
    }
    count
}

#[tactic(auto, using(crate::proofs::FarLemmas::begins, crate::proofs::FarLemmas::goes_on, crate::proofs::FarLemmas::falls, crate::proofs::FarLemmas::ends))]
/// The far branches: from none on, those that go further come in until there are no more.
pub fn far_of(alloc: Global, spots: &[Spot]) -> Result<Vec<bool>, Memory>
    ensures { IfOk result (λ far. AreFar spots.now far.items) }
{
    let mut far = none_of(alloc, spots)?;
    loop {
        let more = grown(alloc, spots, &far)?;
        if near_count(&more) == near_count(&far) {
            return Ok(far);
        }
        far = more;
    }
}
