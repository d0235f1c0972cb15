ghost use Rattle.std.specs.Prelude.{Some};
ghost use Rattle.textline.specs.Numbers.{hex4, hex8};

use std::fmt;

/// A number that is printed as eight lower-case hexadecimal digits, leading zeros among them.
#[derive(Clone, Copy, Debug, PartialEq, Eq)]
pub struct Hex8(pub u32);

impl fmt::Display for Hex8 {
    ghost output = { λ x. Some (hex8 x.0) };

    #[tactic(auto, using(crate::proofs::HexText::hex8_text))]
    fn fmt<W: fmt::Write>(&self, f: &mut fmt::Formatter<W>) -> fmt::Result {
        let number = self.0;
        write!(f, "{number:08x}")
    }
}

/// A number that is printed as four lower-case hexadecimal digits, leading zeros among them.
#[derive(Clone, Copy, Debug, PartialEq, Eq)]
pub struct Hex4(pub u16);

impl fmt::Display for Hex4 {
    ghost output = { λ x. Some (hex4 x.0) };

    #[tactic(auto, using(crate::proofs::HexText::hex4_text))]
    fn fmt<W: fmt::Write>(&self, f: &mut fmt::Formatter<W>) -> fmt::Result {
        let number = self.0;
        write!(f, "{number:04x}")
    }
}
