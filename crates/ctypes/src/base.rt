ghost use Rattle.std.specs.Prelude.{◌≡◌};
ghost use Rattle.ctypes.specs.Base.{kind_integer};

use crate::step::Qualifiers;
use cprogram::Integer;
use csyn::Sign;
use prunum::Width;

/// A struct type, in the order of the definitions.
#[derive(Clone, Copy, Debug, PartialEq, Eq, Hash)]
pub struct StructId(pub u32);

/// What a type begins with. `long` is `int`; `char` and `unsigned char` are two types with the same numbers (C99 6.2.5).
#[derive(Clone, Copy, Debug, PartialEq, Eq)]
pub enum BaseKind {
    Void,
    Char,
    SignedChar,
    UnsignedChar,
    Short,
    UnsignedShort,
    Int,
    UnsignedInt,
    Struct(StructId),
}

impl BaseKind {
    /// The numbers of an integer type (SPRUHV7).
    pub fn integer(self) -> Option<Integer>
        ensures { result ≡ kind_integer self }
    {
        let (width, sign) = match self {
            BaseKind::Void | BaseKind::Struct(_) => return None,
            BaseKind::Char | BaseKind::UnsignedChar => (Width::B1, Sign::Unsigned),
            BaseKind::SignedChar => (Width::B1, Sign::Signed),
            BaseKind::Short => (Width::B2, Sign::Signed),
            BaseKind::UnsignedShort => (Width::B2, Sign::Unsigned),
            BaseKind::Int => (Width::B4, Sign::Signed),
            BaseKind::UnsignedInt => (Width::B4, Sign::Unsigned),
        };
        Some(Integer { width, sign })
    }
}

/// A type that is no pointer and no array, with its qualifiers.
#[derive(Clone, Copy, Debug, PartialEq, Eq)]
pub struct Base {
    pub kind: BaseKind,
    pub qualifiers: Qualifiers,
}
