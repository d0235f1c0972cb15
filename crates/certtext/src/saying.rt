//! What a line says, behind the first.

ghost use Rattle.std.specs.Prelude.{◌≡◌, Some, IfSome};
ghost use Rattle.textline.specs.Lines.{fields_of};
ghost use Rattle.certtext.specs.declared.saying.Saying.{Saying};
ghost use Rattle.certtext.specs.Texts.{Fits, saying_text};
ghost use Rattle.certtext.specs.Fields.{said_in};

use crate::cert::{Label, Refusal};
use crate::edition::Edition;
use crate::fields::said_in_fields;

/// What a line says.
#[derive(Clone, Copy)]
pub enum Saying {
    /// The lines of this core follow.
    Core(u8),
    /// The bounds of a region.
    Certified {
        region: u16,
        least: u32,
        most: u32,
    },
    /// A label of the certificate before.
    Labelled(Label),
    /// A region has no certificate.
    Refused {
        region: u16,
        refusal: Refusal,
    },
    /// In the first edition: a region has none since two paths come to a word with different sums.
    Unbalanced {
        region: u16,
        pc: u16,
        first: u32,
        second: u32,
    },
}

/// What a line without its end says. `None` where it says nothing.
pub fn read_saying(edition: Edition, line: &[u8]) -> Option<Saying>
    ensures found { IfSome result (λ s. Fits edition s) }
    ensures text { IfSome result (λ s. line.now ≡ saying_text edition s) }
    ensures only { (s : Saying) → Fits edition s → line.now ≡ saying_text edition s → result ≡ Some s }
{
    said_in_fields(edition, line)
}
