use cprogram::{FunctionId, LocalId, ObjectId, Register};
use ctypes::CType;

/// The functions that the compiler itself knows.
#[derive(Clone, Copy, Debug, PartialEq, Eq)]
pub enum Intrinsic {
    /// `__delay_cycles`
    Delay,
    /// `__halt`
    Halt,
    /// `__lmbd`
    LeftmostBit,
    /// `__xin`
    ScratchpadIn,
    /// `__xout`
    ScratchpadOut,
}

/// A function, as its declarations say.
#[derive(Drop)]
pub struct Signature {
    /// None where it is void.
    pub result: Option<CType>,
    pub parameters: Vec<CType>,
    /// Its number where it is defined somewhere in the source.
    pub definition: Option<FunctionId>,
}

/// What a name stands for.
#[derive(Drop)]
pub enum Meaning {
    /// No declaration of it holds here.
    Undeclared,
    /// A plain file object.
    Global(ObjectId, CType),
    /// A volatile file object, at this address.
    Volatile(u32, CType),
    /// A parameter or local of the function at hand.
    Local(LocalId, CType),
    /// One of the two volatile registers.
    Register(Register),
    Function(Signature),
    Intrinsic(Intrinsic),
}
