//! The table of operands: how many each mnemonic has, and of which kinds.

ghost use Rattle.std.specs.Prelude.{◌≡◌};
ghost use Rattle.asmword.specs.Kinds.{shape_of};

use crate::mnemonic::Mnemonic;

/// What may stand as an operand.
#[derive(Clone, Copy)]
pub enum Kind {
    /// `R2`, `R2.b0` to `R2.b3`, `R2.w0` to `R2.w2`
    Field,
    /// A field or a number
    Value,
    /// In decimal digits, or in hexadecimal ones behind `0x`
    Number,
    /// A whole register
    Register,
    /// The first of some bytes: `R2`, `R2.b0` to `R2.b3`; `&` may stand before it
    First,
    /// `C28`
    Constant,
    /// The name of a label
    Label,
    /// The name of a label, or a field
    Jump,
}

/// The kinds of a mnemonic's operands, in their order.
#[derive(Clone, Copy)]
pub enum Shape {
    Nothing,
    One(Kind),
    Two(Kind, Kind),
    Three(Kind, Kind, Kind),
    Four(Kind, Kind, Kind, Kind),
}

impl Mnemonic {
    /// Its operands.
    pub fn shape(self) -> Shape
        ensures { result ≡ shape_of self }
    {
        match self {
            Mnemonic::Alu(_) | Mnemonic::Lmbd => {
                Shape::Three(Kind::Field, Kind::Field, Kind::Value)
            }
            Mnemonic::Not => Shape::Two(Kind::Field, Kind::Field),
            Mnemonic::Jmp => Shape::One(Kind::Jump),
            Mnemonic::Jal => Shape::Two(Kind::Field, Kind::Jump),
            Mnemonic::Ldi => Shape::Two(Kind::Field, Kind::Number),
            Mnemonic::Halt => Shape::Nothing,
            Mnemonic::Xin | Mnemonic::Xout => {
                Shape::Three(Kind::Number, Kind::Register, Kind::Number)
            }
            Mnemonic::Loop => Shape::Two(Kind::Label, Kind::Number),
            Mnemonic::Branch(_) => Shape::Three(Kind::Label, Kind::Field, Kind::Value),
            Mnemonic::Qba => Shape::One(Kind::Label),
            Mnemonic::Lbbo | Mnemonic::Sbbo => {
                Shape::Four(Kind::First, Kind::Register, Kind::Value, Kind::Number)
            }
            Mnemonic::Lbco | Mnemonic::Sbco => {
                Shape::Four(Kind::First, Kind::Constant, Kind::Value, Kind::Number)
            }
        }
    }
}
