//! Moves between registers and the scratchpad.

ghost use Rattle.std.specs.Prelude.{◌+◌, ◌≤◌};

/// A bank of the scratchpad.
#[derive(Clone, Copy, Debug, PartialEq, Eq, Hash)]
pub enum Bank {
    /// Device 10
    Bank0,
    /// Device 11
    Bank1,
    /// Device 12
    Bank2,
}

/// Which registers XIN and XOUT move: 1 to 4 of R0 to R29, in a bank and in the core alike.
#[derive(Clone, Copy, Debug, PartialEq, Eq)]
pub struct Transfer {
    pub bank: Bank,
    pub first: u8,
    pub count: u8,
    pub ghost some_register: { 1 ≤ count },
    pub ghost at_most: { count ≤ 4 },
    pub ghost below: { first + count ≤ 30 },
}
