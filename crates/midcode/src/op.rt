use crate::register::{Label, Registers, VReg};
use prunum::Width;

/// What an operation with one operand gives.
#[derive(Clone, Copy)]
pub enum UnaryOp {
    /// 0 less the operand
    Negate,
    /// All bits turned
    Complement,
    /// 1 for 0, else 0
    Not,
}

/// What an operation with two operands gives. Each is taken as a number of 32 bits without sign, or where it says so as one of two's
/// complement. Comparisons give 1 or 0.
#[derive(Clone, Copy)]
pub enum BinaryOp {
    Add,
    Subtract,
    And,
    Or,
    Xor,
    /// By the right operand modulo 32, as the other shifts
    ShiftLeft,
    ShiftRight,
    ShiftRightSigned,
    Multiply,
    /// All bits set where the right operand is 0
    Quotient,
    QuotientSigned,
    /// The left operand where the right one is 0
    Remainder,
    RemainderSigned,
    Equal,
    NotEqual,
    Less,
    LessSigned,
    LessOrEqual,
    LessOrEqualSigned,
    /// The number of the highest bit of the left operand that is bit 0 of the right one, or 32
    LeftmostBit,
}

/// The right operand of a binary operation.
#[derive(Clone, Copy)]
pub enum Operand {
    Register(VReg),
    Constant(u32),
}

/// What the address of a plain access is counted from: an object, by its number, or an address in a register.
#[derive(Clone, Copy)]
pub enum Base {
    Object(u32),
    Register(VReg),
}

/// What the address of a volatile access is counted from: a constant address, or one in a register.
#[derive(Clone, Copy)]
pub enum VolatileBase {
    Address(u32),
    Register(VReg),
}

/// The registers of the core whose uses are events.
#[derive(Clone, Copy)]
pub enum CoreRegister {
    R30,
    R31,
}

/// When a branch is taken.
#[derive(Clone, Copy)]
pub enum Test {
    Equal,
    NotEqual,
}

/// Where a region begins or ends.
#[derive(Clone, Copy)]
pub enum Mark {
    Enter(u32),
    Leave(u32),
}

/// What an operation does. Objects, functions and regions are named by their numbers in the program. A result is cut to the width of
/// its register. An access has the width of the register that it loads, or the width that it says, of whose register it stores the low
/// bytes.
#[derive(Clone, Copy)]
pub enum OpKind {
    Constant {
        to: VReg,
        value: u32,
    },
    /// The address of a byte of an object
    Address {
        to: VReg,
        object: u32,
        offset: u16,
    },
    Copy {
        to: VReg,
        from: VReg,
    },
    Unary {
        op: UnaryOp,
        to: VReg,
        from: VReg,
    },
    Binary {
        op: BinaryOp,
        to: VReg,
        left: VReg,
        right: Operand,
    },
    /// A number of two's complement in a wider register
    Widen {
        to: VReg,
        from: VReg,
    },
    Load {
        to: VReg,
        base: Base,
        offset: u16,
    },
    Store {
        base: Base,
        offset: u16,
        from: VReg,
        width: Width,
    },
    /// Sets 1 to 256 bytes of an object to 0.
    Zero {
        object: u32,
        offset: u16,
        bytes: u16,
    },
    /// A volatile read. It is marked own where it is of an object in the own window, by its name.
    Read {
        to: VReg,
        base: VolatileBase,
        offset: u16,
        own: bool,
    },
    Write {
        base: VolatileBase,
        offset: u16,
        from: VReg,
        width: Width,
        own: bool,
    },
    ReadRegister {
        to: VReg,
        register: CoreRegister,
    },
    WriteRegister {
        register: CoreRegister,
        from: VReg,
    },
    ReadPad {
        to: VReg,
        bank: u8,
        register: u8,
    },
    WritePad {
        bank: u8,
        register: u8,
        from: VReg,
    },
    Call {
        function: u32,
        arguments: Registers,
        to: Option<VReg>,
    },
    Return(Option<VReg>),
    Label(Label),
    Jump(Label),
    /// A jump where the register is equal, or not equal, to the number. One that goes back may say how many turns its loop is run for, each
    /// time that the loop is come to.
    Branch {
        left: VReg,
        test: Test,
        right: u32,
        to: Label,
        turns: Option<u32>,
    },
    Mark(Mark),
    /// So many cycles
    Delay(u32),
    Halt,
}

/// An operation, with the line in the source that it was made of.
#[derive(Clone, Copy)]
pub struct Op {
    pub line: u32,
    pub kind: OpKind,
}
