ghost use Rattle.std.specs.Prelude.{◌≡◌};

use crate::pointer::PointerKind;
use csyn::Sign;
use prunum::Width;

/// An integer type, by its width and sign. Plain `char` has no sign, as the PRU C compiler has it (SPRUHV7).
#[derive(Clone, Copy, Debug, PartialEq, Eq)]
pub struct Integer {
    pub width: Width,
    pub sign: Sign,
}

/// A scalar type (C99 6.2.5): what a leaf of an object holds, and what a value is of.
#[derive(Clone, Copy, Debug, PartialEq, Eq)]
pub enum Scalar {
    Integer(Integer),
    Pointer(PointerKind),
}

impl Integer {
    ghost use Rattle.cprogram.specs.Scalar.{converted};

    /// What turns a number of this type into one of another width: nothing where it is the same.
    pub fn converted(self, to: Width) -> Conversion
        ensures { result ≡ converted self to }
    {
        match (self.width, to) {
            (Width::B1, Width::B1) | (Width::B2, Width::B2) | (Width::B4, Width::B4) => {
                Conversion::Same
            }
            _ => Conversion::Integer { from: self, to },
        }
    }
}

impl Scalar {
    ghost use Rattle.cprogram.specs.Scalar.{arithmetic, scalar_width};

    /// The type of arithmetic of this sign: `int` or `unsigned int`.
    pub fn arithmetic(sign: Sign) -> Scalar
        ensures { result ≡ arithmetic sign }
    {
        Scalar::Integer(Integer {
            width: Width::B4,
            sign,
        })
    }

    /// The width of a number of the type. A pointer has four bytes.
    pub fn width(self) -> Width
        ensures { result ≡ scalar_width self }
    {
        match self {
            Scalar::Integer(integer) => integer.width,
            Scalar::Pointer(_) => Width::B4,
        }
    }
}

/// What a value becomes on its way into an operation, an object or a cast (C99 6.3). It counts no step by itself.
#[derive(Clone, Copy, Debug, PartialEq, Eq)]
pub enum Conversion {
    /// It stays as it is.
    Same,
    /// A number of the type `from` becomes the number of the width `to` that equals it modulo 2 to the number of bits.
    Integer { from: Integer, to: Width },
    /// A number of this type becomes an address, as it would become a number of four bytes.
    ToAddress(Integer),
    /// An address becomes a number of this width.
    FromAddress(Width),
    /// The constant 0 becomes a null pointer.
    ToNull,
}
