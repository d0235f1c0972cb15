//! A core in the machine.

ghost use Rattle.std.specs.Prelude.{◌≡◌, IfOk};
ghost use Rattle.twocore.specs.Memory as spec;

use crate::ram::Ram;
use corestep::{Core, PRIVATE_BYTES, Stop};
use isa::Image;
use prunum::Memory;
use std::alloc::Global;

/// A word that a core is doing: its first and its last cycle.
#[derive(Clone, Copy, Debug, PartialEq, Eq)]
pub struct Word {
    pub first: u32,
    pub last: u32,
}

/// A core in the machine: the core between two words with the private part of its RAM, the volatile window behind that, whether it has
/// begun to run, how it stands, the word that it is doing, how many accesses have taken an arbitration number, and how many
/// instructions are done.
#[derive(Debug, Drop)]
pub struct Side {
    pub core: Core,
    pub window: Ram<0x200>,
    pub started: bool,
    pub stop: Stop,
    pub word: Option<Word>,
    pub waited: u32,
    pub count: u32,
}

impl Side {
    ghost use Rattle.twocore.specs.Machine.{side_at_start};

    /// A core at its start.
    pub fn new(alloc: Global, image: &Image, started: bool) -> Result<Side, Memory>
        ensures { IfOk result (λ side. side ≡ side_at_start image.now started) }
    {
        Ok(Side {
            core: Core::new(alloc, image)?,
            window: Ram::new(alloc)?,
            started,
            stop: Stop::Going,
            word: None,
            waited: 0,
            count: 0,
        })
    }

    /// Brings the core back to its start.
    pub fn restart(&mut self, image: &Image, started: bool)
        ensures { self.new ≡ side_at_start image.now started }
    {
        self.core.restart(image);
        self.window.clear();
        self.started = started;
        self.stop = Stop::Going;
        self.word = None;
        self.waited = 0;
        self.count = 0;
    }
}

/// A byte of the core's own RAM, and 0 behind its end.
pub fn ram_byte(side: &Side, at: u32) -> u8
    ensures { result ≡ spec.ram_byte side.now at }
{
    if at < PRIVATE_BYTES {
        side.core.byte(at)
    } else {
        side.window.get((at - PRIVATE_BYTES) as usize)
    }
}
