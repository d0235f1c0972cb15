use super::*;
use csyn::Span;
use std::alloc::{AllocError, Global};
use std::test::Fail;

fn place(line: u32) -> Span {
    Span { line, column: 1 }
}

fn add(
    functions: &mut [Vec<Call>],
    caller: usize,
    callee: u32,
    place: Span,
) -> Result<(), AllocError> {
    if caller < functions.len() {
        functions[caller].push(Call { callee, place })?;
    }
    Ok(())
}

// So many functions, with calls by caller, callee and line.
fn program(
    alloc: Global,
    count: usize,
    calls: &[(usize, u32, u32)],
) -> Result<Vec<Vec<Call>>, AllocError> {
    let mut functions = Vec::new(alloc);
    for _ in 0..count {
        functions.push(Vec::new(alloc))?;
    }
    for (caller, callee, line) in calls {
        add(&mut functions, *caller, *callee, place(*line))?;
    }
    Ok(functions)
}

fn first(
    alloc: Global,
    count: usize,
    calls: &[(usize, u32, u32)],
) -> Result<Option<u32>, AllocError> {
    let functions = program(alloc, count, calls)?;
    let found = first_in_cycle(alloc, &functions)?;
    Ok(found.map(|place| place.line))
}

// Each function calls the next one.
fn chain(alloc: Global, count: u32) -> Result<Vec<Vec<Call>>, AllocError> {
    let mut functions = Vec::new(alloc);
    for number in 0..count {
        let mut calls = Vec::new(alloc);
        calls.push(Call {
            callee: number.wrapping_add(1),
            place: place(number),
        })?;
        functions.push(calls)?;
    }
    Ok(functions)
}

#[test]
fn calls_in_no_cycle(rt: HostRuntime) -> Result<(), Fail> {
    let alloc = rt.alloc();
    assert_eq!(rt; first(alloc, 0, &[])?, None);
    assert_eq!(rt; first(alloc, 2, &[(1, 0, 1), (1, 0, 2)])?, None);
    // two ways to one function, and a callee that is no function's number
    assert_eq!(rt;
        first(
            alloc,
            4,
            &[(0, 1, 1), (0, 2, 2), (1, 3, 3), (2, 3, 4), (3, 9, 5)]
        )?,
        None
    );
    Ok(())
}

#[test]
fn the_first_call_in_a_cycle(rt: HostRuntime) -> Result<(), Fail> {
    let alloc = rt.alloc();
    // a function that calls itself
    assert_eq!(rt; first(alloc, 1, &[(0, 0, 7)])?, Some(7));
    // three functions, with a call into the cycle and one out of it before
    assert_eq!(rt;
        first(
            alloc,
            5,
            &[(0, 1, 1), (1, 2, 4), (2, 3, 5), (3, 1, 6), (2, 4, 3)]
        )?,
        Some(4)
    );
    // two cycles, the later one of the lower numbers
    assert_eq!(rt;
        first(alloc, 4, &[(0, 1, 8), (1, 0, 9), (2, 3, 5), (3, 2, 6)])?,
        Some(5)
    );
    // a bridge from one cycle to another stands in none
    assert_eq!(rt;
        first(
            alloc,
            4,
            &[(0, 1, 3), (1, 0, 4), (1, 2, 1), (2, 3, 5), (3, 2, 6)]
        )?,
        Some(3)
    );
    // of two calls from one function the second closes the cycle
    assert_eq!(rt;
        first(alloc, 3, &[(0, 2, 1), (0, 1, 2), (1, 0, 3), (2, 2, 9)])?,
        Some(2)
    );
    Ok(())
}

#[test]
fn one_line(rt: HostRuntime) -> Result<(), Fail> {
    let alloc = rt.alloc();
    let mut functions = program(alloc, 2, &[])?;
    add(&mut functions, 0, 0, Span { line: 2, column: 9 })?;
    add(&mut functions, 0, 0, Span { line: 2, column: 4 })?;
    add(&mut functions, 1, 1, Span { line: 3, column: 1 })?;
    assert_eq!(rt;
        first_in_cycle(alloc, &functions)?,
        Some(Span { line: 2, column: 4 })
    );
    Ok(())
}

#[test]
fn three_thousand_functions(rt: HostRuntime) -> Result<(), Fail> {
    let alloc = rt.alloc();
    let mut functions = chain(alloc, 3000)?;
    assert_eq!(rt; first_in_cycle(alloc, &functions)?, None);
    add(&mut functions, 2999, 0, place(5000))?;
    assert_eq!(rt; first_in_cycle(alloc, &functions)?, Some(place(0)));
    Ok(())
}
