ghost use Rattle.std.specs.Prelude.{◌≡◌, ℕ, ◌+◌, ◌<◌, Option, Some, IfOk, option_map};
ghost use Rattle.isa.specs.Program.{IsWhole};
ghost use Rattle.branchfit.specs.Fits.{named};
ghost use Rattle.branchfit.specs.Loops.{is_wide, is_long_loop, first_long, IsLongLoop};

use crate::fitting::named;
use crate::layout::Layout;
use crate::spot::place_behind;
use isa::{AsmProgram, Inst, Item};
use prunum::Memory;
use std::alloc::Global;

/// The number of the first item that is a LOOP whose body has no fitted word or more than 255, where there is one. The greatest
/// number stands in place of a larger one.
pub fn long_loop(alloc: Global, p: &AsmProgram) -> Result<Option<u32>, Memory>
    requires { IsWhole p.now }
    ensures { IfOk result (IsLongLoop p.now) }
{
    let layout = Layout::of(alloc, p.items())?;
    Ok(first_long(&layout, p.items()).map(named))
}

fn is_wide(here: usize, there: usize) -> bool
    ensures { result ≡ is_wide here there }
{
    if there < here {
        true
    } else {
        there - here < 2 || there - here > 256
    }
}

fn is_long_loop(layout: &Layout, place: usize, item: &Item) -> bool
    ensures { result ≡ is_long_loop layout.now place item.now }
{
    match item {
        Item::Aimed {
            inst: Inst::Loop { .. },
            ..
        } => is_wide(layout.number_at(place), layout.there_at(place)),
        _ => false,
    }
}

#[tactic(auto, using(crate::proofs::StepLemmas::long_on, crate::proofs::StepLemmas::long_here, crate::proofs::StepLemmas::long_end, crate::proofs::StepLemmas::long_begin))]
fn first_long(layout: &Layout, items: &[Item]) -> Option<usize>
    ensures { result ≡ first_long layout.now 0 items.now }
{
    let mut place = 0;
    let mut number = 0;
    let mut rest = items;
    while let Some((item, behind)) = rest.split_first() {
        if is_long_loop(layout, place, item) {
            return Some(number);
        }
        let next = place_behind(place, item);
        place = next;
        number += 1;
        rest = behind;
    }
    None
}
