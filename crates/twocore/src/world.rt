//! What both cores share.

ghost use Rattle.std.specs.Prelude.{◌≡◌, IfOk};

use crate::ram::Ram;
use devices::{Intc, Pads, Pins};
use prunum::Memory;
use std::alloc::Global;

/// What both cores share: the shared RAM, the memory outside, the interrupt controller, the scratchpad and the pins.
#[derive(Debug, Drop)]
pub struct World {
    pub shared: Ram<0x3000>,
    pub outside: Ram<0x1_0000>,
    pub intc: Intc,
    pub pads: Pads,
    pub pins: Pins,
}

impl World {
    ghost use Rattle.twocore.specs.Machine.{world_at_start};

    /// All is 0.
    #[tactic(auto, unfolding(crate::specs::Machine::world_at_start))]
    pub fn new(alloc: Global) -> Result<World, Memory>
        ensures { IfOk result (λ world. world ≡ world_at_start) }
    {
        Ok(World {
            shared: Ram::new(alloc)?,
            outside: Ram::new(alloc)?,
            intc: Intc::new(),
            pads: Pads::new(),
            pins: Pins::new(),
        })
    }

    /// Makes all 0 again.
    #[tactic(auto, unfolding(crate::specs::Machine::world_at_start))]
    pub fn restart(&mut self)
        ensures { self.new ≡ world_at_start }
    {
        self.shared.clear();
        self.outside.clear();
        self.intc = Intc::new();
        self.pads = Pads::new();
        self.pins = Pins::new();
    }
}
