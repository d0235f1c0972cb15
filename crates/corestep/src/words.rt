//! A word of a core, and what it needs.

ghost use Rattle.std.specs.Prelude.{◌≡◌};
ghost use Rattle.corestep.specs.Step.{needed, stepped};

use crate::out::{Input, Need, StepOut, Stop};
use crate::state::Core;
use isa::Image;

/// What the word at the core's counter needs.
pub fn need(core: &Core, image: &Image) -> Need
    ensures { result ≡ needed image.now core.now }
{
    match core.next(image) {
        None => Need::Stuck,
        Some(i) => core.need_of(&i),
    }
}

/// Runs the word at the core's counter. Of the input it reads R31, the bytes of a load that isn't private, and the registers of an XIN.
/// What a store that isn't private writes below 0x1e00 is in the core already.
#[tactic(auto, unfolding(crate::specs::Step::istep))]
pub fn step(core: &mut Core, image: &Image, input: &Input, out: &mut StepOut)
    ensures core { core.new ≡ (stepped image.now core.old input.now).core }
    ensures out { out.new ≡ (stepped image.now core.old input.now).out }
{
    match core.next(image) {
        None => out.clear(Stop::Stuck),
        Some(i) => core.step_of(image, &i, input, out),
    }
}
