//! Numbers of the functions' components: two functions of a component reach each other by calls. They are found along one path, whose
//! functions are put together where a call leads back. What they are used for is checked by one pass over the calls, so nothing that
//! is proved rests on how they are found.

ghost use Rattle.std.specs.Prelude.{◌≡◌, ◌↔◌, IsTrue, IfOk, slice_index};
ghost use Rattle.callcycle.specs.Search.{AreUpTo, NeverRises};

use crate::call::Call;
use std::alloc::{AllocError, Global};

#[derive(Clone, Copy)]
enum State {
    Unseen,
    /// On the path, at this place.
    Open(usize),
    Closed,
}

#[derive(Drop)]
struct Path {
    states: Vec<State>,
    numbers: Vec<usize>,
    /// How many calls of each function were followed.
    followed: Vec<usize>,
    /// The functions on the path.
    open: Vec<usize>,
    /// Where on the path the components begin.
    starts: Vec<usize>,
    /// Where on the path the functions stand that have calls left.
    unfinished: Vec<usize>,
    /// How many components are closed.
    closed: usize,
}

impl Path {
    fn new(alloc: Global, functions: usize) -> Result<Path, AllocError> {
        Ok(Path {
            states: vec![in alloc; State::Unseen; functions]?,
            numbers: vec![in alloc; 0; functions]?,
            followed: vec![in alloc; 0; functions]?,
            open: Vec::new(alloc),
            starts: Vec::new(alloc),
            unfinished: Vec::new(alloc),
            closed: 0,
        })
    }

    // Puts an unseen function at the end of the path, as a component of its own.
    fn come_to(&mut self, function: usize) -> Result<(), AllocError> {
        let place = self.open.len();
        if function < self.states.len() {
            self.states[function] = State::Open(place);
        }
        self.open.push(function)?;
        self.starts.push(place)?;
        self.unfinished.push(place)?;
        Ok(())
    }

    fn come_to_unseen(&mut self, function: usize) -> Result<(), AllocError> {
        match self.states.get(function) {
            Some(State::Unseen) => self.come_to(function),
            _ => Ok(()),
        }
    }

    fn follow(&mut self, function: usize) {
        if function < self.followed.len() {
            self.followed[function] = self.followed[function].wrapping_add(1);
        }
    }

    // A call from a function of the last component, which begins at this place.
    fn meet(&mut self, start: usize, caller: usize, callee: usize) -> Result<(), AllocError> {
        match self.states.get(callee).copied() {
            Some(State::Open(place)) if place < start => {
                let _joined = self.starts.pop();
                Ok(())
            }
            _ => {
                self.follow(caller);
                self.come_to_unseen(callee)
            }
        }
    }

    fn number(&mut self, function: usize) {
        if function < self.states.len() && function < self.numbers.len() {
            self.states[function] = State::Closed;
            self.numbers[function] = self.closed;
        }
    }

    // The last component has no calls left.
    fn close(&mut self, start: usize) {
        for _ in 0..self.open.len() {
            if self.open.len() <= start {
                break;
            }
            if let Some(function) = self.open.pop() {
                self.number(function);
            }
        }
        let _closed = self.starts.pop();
        self.closed = self.closed.wrapping_add(1);
    }

    // The next call of the last function with calls left, if it belongs to the last component.
    fn step(&mut self, functions: &[Vec<Call>], start: usize) -> Result<(), AllocError> {
        match self.unfinished.last().copied() {
            Some(place) if start <= place => {
                let caller = self.open.get(place).copied().unwrap_or(0);
                match next_callee(functions, caller, &self.followed) {
                    Some(callee) => self.meet(start, caller, callee),
                    None => {
                        let _finished = self.unfinished.pop();
                        Ok(())
                    }
                }
            }
            _ => {
                self.close(start);
                Ok(())
            }
        }
    }
}

fn next_callee(functions: &[Vec<Call>], caller: usize, followed: &[usize]) -> Option<usize> {
    let calls = functions.get(caller)?;
    let call = calls.get(*followed.get(caller)?)?;
    Some(call.callee as usize)
}

// No more steps than these are needed: one for each call, and three for each function.
fn enough_steps(functions: &[Vec<Call>]) -> usize {
    let mut steps: usize = functions.len().wrapping_mul(3).wrapping_add(1);
    for calls in functions {
        steps = steps.wrapping_add(calls.len());
    }
    steps
}

fn component_numbers(alloc: Global, functions: &[Vec<Call>]) -> Result<Vec<usize>, AllocError> {
    let mut path = Path::new(alloc, functions.len())?;
    let mut root = 0;
    for _ in 0..enough_steps(functions) {
        match path.starts.last().copied() {
            Some(start) => path.step(functions, start)?,
            None => {
                path.come_to_unseen(root)?;
                root = root.wrapping_add(1);
            }
        }
    }
    Ok(path.numbers)
}

/// The number of a function; 0 where it has none.
pub fn number_of(numbers: &[usize], function: usize) -> usize
    ensures { result ≡ slice_index numbers.now function }
{
    match numbers.get(function) {
        Some(number) => *number,
        None => 0,
    }
}

fn are_up_to(calls: &[Call], numbers: &[usize], most: usize) -> bool
    ensures { IsTrue result ↔ AreUpTo calls.now numbers.now most }
{
    for call in calls {
        if most < number_of(numbers, call.callee as usize) {
            return false;
        }
    }
    true
}

// Whether no call leads to a greater number.
fn never_rises(functions: &[Vec<Call>], numbers: &[usize]) -> bool
    ensures { IsTrue result → NeverRises functions.now numbers.now }
{
    for (caller, calls) in functions.iter().enumerate() {
        if !are_up_to(calls, numbers, number_of(numbers, caller)) {
            return false;
        }
    }
    true
}

/// Numbers that no call leads up from, and mostly those of the components.
pub fn falling_numbers(alloc: Global, functions: &[Vec<Call>]) -> Result<Vec<usize>, AllocError>
    ensures { IfOk result (λ numbers. NeverRises functions.now numbers.items) }
{
    let numbers = component_numbers(alloc, functions)?;
    if never_rises(functions, &numbers) {
        Ok(numbers)
    } else {
        Ok(Vec::new(alloc))
    }
}
