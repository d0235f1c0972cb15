//! Accesses to memory.

ghost use Rattle.std.specs.Prelude.{◌≡◌, ◌+◌, ◌*◌, ◌<◌, ◌≤◌, IsTrue};
ghost use Rattle.isa.specs.Constants.{address_of};
ghost use Rattle.isa.specs.Low.{is_low_base, is_low_operand};

use crate::field::Operand;

/// The addresses of the constants table, this project's own.
#[derive(Clone, Copy, Debug, PartialEq, Eq, Hash)]
pub enum Constant {
    /// 0x20000, the interrupt controller
    C0,
    /// 0x26000, CFG
    C4,
    /// 0, the core's own RAM
    C24,
    /// 0x2000, the other core's RAM
    C25,
    /// 0x10000, the shared RAM
    C28,
}

impl Constant {
    /// The address that it stands for, as the core sees it.
    pub fn address(self) -> u32
        ensures { result ≡ address_of self }
    {
        match self {
            Constant::C0 => 0x2_0000,
            Constant::C4 => 0x2_6000,
            Constant::C24 => 0,
            Constant::C25 => 0x2000,
            Constant::C28 => 0x1_0000,
        }
    }
}

/// What an address is counted from: a register below R30, or a constant.
#[derive(Clone, Copy, Debug, PartialEq, Eq, Hash)]
pub enum Base {
    Reg(u8),
    Constant(Constant),
}

/// A move of bytes between memory and R0 to R29. In memory they begin at base plus offset, in the registers at byte
/// `byte` of R`first`. The offset isn't in R30 or R31.
#[derive(Clone, Copy, Debug, PartialEq, Eq)]
pub struct Access {
    pub first: u8,
    pub byte: u8,
    pub len: u8,
    pub base: Base,
    pub offset: Operand,
    pub ghost in_register: { byte < 4 },
    pub ghost some_byte: { 1 ≤ len },
    pub ghost below: { 4 * first + byte + len ≤ 120 },
    pub ghost low_base: { IsTrue (is_low_base base) },
    pub ghost low_offset: { IsTrue (is_low_operand offset) },
}
