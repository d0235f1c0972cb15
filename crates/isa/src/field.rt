//! Fields of registers, as SPRUIJ2 writes them.

ghost use Rattle.std.specs.Prelude.{◌<◌};

/// Which bytes of a register a field has. `B0` is the lowest byte; `W1` is bytes 1 and 2.
#[derive(Clone, Copy, Debug, PartialEq, Eq, Hash)]
pub enum Part {
    B0,
    B1,
    B2,
    B3,
    W0,
    W1,
    W2,
    All,
}

/// A field of one of the registers R0 to R31.
#[derive(Clone, Copy, Debug, PartialEq, Eq)]
pub struct Field {
    pub reg: u8,
    pub part: Part,
    pub ghost in_range: { reg < 32 },
}

/// What an instruction reads: a field, or the number itself.
#[derive(Clone, Copy, Debug, PartialEq, Eq)]
pub enum Operand {
    Field(Field),
    Imm(u8),
}
