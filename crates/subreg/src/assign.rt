ghost use Rattle.std.specs.Prelude.{◌≡◌, ◌<◌, length, slice_get, Some};

use crate::home::Home;
use midcode::VReg;
use std::marker::Model;

/// The homes of a function's virtual registers, by their numbers, and how many slots they take.
#[derive(Drop)]
pub struct Assign {
    homes: Vec<Home>,
    spills: u32,
}

impl Model for Assign {
    ghost use Rattle.subreg.specs.Homes.{Homes};

    ghost Value = { Homes };

    ghost view = { λ a. record { homes = a.homes.items; spills = a.spills } };
}

impl Assign {
    /// These homes, whose slots are numbered below `spills`.
    pub fn new(homes: Vec<Home>, spills: u32) -> Assign
        ensures { result ≡ record { homes = homes.items; spills = spills } }
    {
        Assign { homes, spills }
    }

    /// The home of a virtual register of the function.
    pub fn place(&self, v: VReg) -> Home
        requires { v.0 < length self.now.homes }
        ensures { slice_get self.now.homes v.0 ≡ Some result }
    {
        self.homes[v.0 as usize]
    }

    /// The number of slots.
    pub fn spills(&self) -> u32
        ensures { result ≡ self.now.spills }
    {
        self.spills
    }
}
