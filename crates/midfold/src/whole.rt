//! Whole programs.

ghost use Rattle.std.specs.Prelude.{All, OnOk};
ghost use Rattle.midcode.specs.Function.{kinds};
ghost use Rattle.midopt.specs.Better.{IsBetter, IsBetterFunction, AreBetter};
ghost use Rattle.midopt.specs.Tidy.{IsTidy};

use crate::folding::fold;
use crate::unread::take_unread;
use midcode::{MidFn, MidProgram};
use prunum::Memory;
use std::alloc::Global;

/// Tidies a function: operations on known numbers are computed, and then values that nobody reads are taken out.
pub fn tidy_function(alloc: Global, f: &mut MidFn) -> Result<(), Memory>
    ensures better { IsBetterFunction f.old f.new }
    ensures done { OnOk result (IsTidy (kinds f.new)) }
{
    fold(alloc, f)?;
    take_unread(alloc, f)
}

fn tidy_functions(alloc: Global, functions: &mut [MidFn]) -> Result<(), Memory>
    ensures better { AreBetter functions.old functions.new }
    ensures done { OnOk result (All (λ f. IsTidy (kinds f)) functions.new) }
{
    for i in 0..functions.len() {
        tidy_function(alloc, &mut functions[i])?;
    }
    Ok(())
}

/// A program that was tidied, or as much of it as there was memory for.
#[derive(Drop)]
pub struct Tidied {
    pub program: MidProgram,
    pub done: Result<(), Memory>,
}

/// Tidies a program. What is given may stand for it, also where memory was wanting.
pub fn tidy(alloc: Global, p: MidProgram) -> Tidied
    ensures better { IsBetter p result.program }
    ensures done { OnOk result.done (All (λ f. IsTidy (kinds f)) result.program.functions) }
{
    let mut parts = p.into_parts();
    let done = tidy_functions(alloc, parts.functions.as_mut_slice());
    Tidied {
        program: MidProgram::new(parts.functions, parts.objects, parts.regions, parts.main),
        done,
    }
}
