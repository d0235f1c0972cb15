ghost use Rattle.std.specs.Prelude.{◌<◌};

use crate::scalar::Scalar;

/// One of the two volatile registers that every source may name.
#[derive(Clone, Copy, Debug, PartialEq, Eq, Hash)]
pub enum Register {
    R30,
    R31,
}

/// A register of the scratchpad's banks. Bank 0 is that of device 10.
#[derive(Clone, Copy, Debug, PartialEq, Eq, Hash)]
pub struct ScratchpadRegister {
    pub bank: u8,
    pub register: u8,
    pub ghost of_a_bank: { bank < 3 },
    pub ghost moved: { register < 30 },
}

/// Where an access goes.
#[derive(Clone, Copy, Debug, PartialEq, Eq, Hash)]
pub enum AccessKind {
    /// To a plain object. It is no event.
    Plain,
    /// To a volatile object in the core's own window, by its name, members and constant indexes in range.
    Own,
    /// To any other volatile object.
    Volatile,
    /// To R30 or R31.
    Register,
}

/// A read or write of one scalar. Its width is that of its type.
#[derive(Clone, Copy, Debug, PartialEq, Eq)]
pub struct Access {
    pub kind: AccessKind,
    pub scalar: Scalar,
}
