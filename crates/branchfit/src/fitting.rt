ghost use Rattle.std.specs.Prelude.{◌≡◌, IfOk, IfErr, OnOk};
ghost use Rattle.isa.specs.Program.{IsWhole};
ghost use Rattle.branchfit.specs.declared.fitting.FitFault.TheVariants as faults;
ghost use Rattle.branchfit.specs.Faults.{IsFaultOf};
ghost use Rattle.branchfit.specs.Fits.{Fits, IsShort, named};
ghost use Rattle.branchfit.specs.Loops.{HasShortLoops};

use crate::laying::lay;
use crate::layout::Layout;
use isa::{AsmProgram, Words};
use prunum::Memory;
use std::alloc::Global;
use thiserror::Error;

/// The most words that a core's code has.
const MOST_WORDS: usize = 2048;

/// Why a program has no fitted words.
#[derive(Debug, Drop, Error)]
pub enum FitFault {
    /// It has `n` fitted words, more than 2,048. The greatest number stands in place of a larger one.
    #[error("{n} words are more than 2048")]
    TooManyWords { n: u32 },
    #[error("memory")]
    Memory,
}

impl From<Memory> for FitFault {
    ghost from_gives = { λ _ e. e ≡ faults.Memory };

    fn from(_: Memory) -> FitFault {
        FitFault::Memory
    }
}

/// A number, or the greatest in place of a larger one.
pub fn named(n: usize) -> u32
    ensures { result ≡ named n }
{
    n.min(u32::MAX as usize) as u32
}

/// The words of a program: each instruction's, where a branch that goes further than its word tells is the opposite branch over
/// a JMP. It takes time n log n where few branches make others far.
pub fn fit(alloc: Global, p: &AsmProgram) -> Result<Words, FitFault>
    requires whole { IsWhole p.now }
    requires loops { HasShortLoops p.now }
    ensures ok { IfOk result (Fits p.now) }
    ensures few { OnOk result (IsShort p.now) }
    ensures fault { IfErr result (IsFaultOf p.now) }
{
    let layout = Layout::of(alloc, p.items())?;
    let n = layout.length();
    if n > MOST_WORDS {
        return Err(FitFault::TooManyWords { n: named(n) });
    }
    let words = lay(alloc, &layout, p.items())?;
    Ok(words)
}
