//! How many cycles a word takes.

ghost use Rattle.std.specs.Prelude.{◌≡◌, ◌^◌, ◌<◌};
ghost use Rattle.corestep.specs.Memory.{class_of};
ghost use Rattle.corestep.specs.Cost.{load_cycles, store_cycles, outside_cycles, class_cycles, quarters, cost};

use isa::Inst;

/// A cycle table, this project's own.
#[derive(Clone, Copy, Debug, PartialEq, Eq)]
pub enum Table {
    One,
    /// With slower memory.
    Two,
}

/// Where an access goes by its first byte.
#[derive(Clone, Copy, Debug, PartialEq, Eq)]
pub enum Class {
    /// The core's own data RAM.
    Own,
    /// The other core's RAM, the shared RAM, the interrupt controller, CFG, and every address that nothing stands at.
    Shared,
    /// The memory outside the subsystem.
    Outside,
}

impl Class {
    /// The class of an address as the core sees it.
    pub fn of(addr: u32) -> Class
        ensures { result ≡ class_of addr }
    {
        if addr < 0x2000 {
            Class::Own
        } else if 0x8_0000 <= addr && addr <= 0x8_ffff {
            Class::Outside
        } else {
            Class::Shared
        }
    }
}

impl Table {
    fn load_cycles(self) -> u32
        ensures value { result ≡ load_cycles self }
        ensures small { result < 4 }
    {
        match self {
            Table::One => 2,
            Table::Two => 3,
        }
    }

    fn store_cycles(self) -> u32
        ensures value { result ≡ store_cycles self }
        ensures small { result < 4 }
    {
        match self {
            Table::One => 1,
            Table::Two => 2,
        }
    }

    fn outside_cycles(self) -> u32
        ensures value { result ≡ outside_cycles self }
        ensures small { result < 41 }
    {
        match self {
            Table::One => 20,
            Table::Two => 40,
        }
    }

    fn class_cycles(self, class: Class, wait: u8) -> u32
        ensures value { result ≡ class_cycles self class wait }
        ensures small { result < 300 }
    {
        match class {
            Class::Own => 0,
            Class::Shared => u32::from(wait),
            Class::Outside => self.outside_cycles() + u32::from(wait),
        }
    }
}

fn quarters(len: u8) -> u32
    ensures value { result ≡ quarters len }
    ensures small { result < 65 }
{
    (u32::from(len) + 3) / 4
}

/// The cycles of a word. The address and the wait are those of its access, and count for no other word.
pub fn cost(table: Table, i: &Inst, addr: u32, wait: u8) -> u32
    ensures { result ≡ cost table i.now addr wait }
{
    match i {
        Inst::Load { access } => table.load_cycles()
            + quarters(access.len)
            + table.class_cycles(Class::of(addr), wait),
        Inst::Store { access } => table.store_cycles()
            + quarters(access.len)
            + table.class_cycles(Class::of(addr), wait),
        _ => 1,
    }
}
