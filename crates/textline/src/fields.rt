ghost use Rattle.std.specs.Prelude.{◌≡◌, ◌↔◌, List, ℕ, [], ◌∷◌, drop, slice_get, IsTrue, IfSome, IfNone, option_and_then, Some};
ghost use Rattle.textline.specs.Lines.{fields_of, line_of};
ghost use Rattle.textline.specs.Numbers.{decimal_in, hex_in};

use crate::cut::split_once;
use crate::number::{Decimal, read_decimal, read_hex4, read_hex8};
use std::marker::Model;

/// The fields of a line that are still to be read. Single spaces separate them.
#[derive(Drop)]
pub struct Fields<'a> {
    rest: Option<&'a [u8]>,
}

impl<'a> Model for Fields<'a> {
    ghost use Rattle.std.specs.Prelude.{List, ℕ};

    ghost Value = { List (List ℕ) };

    ghost use Rattle.textline.specs.Fields.{fields_left};

    ghost view = { fields_left };
}

impl<'a> Fields<'a> {
    /// All the fields of the line. A line with no bytes has one, an empty one.
    pub fn of(line: &'a [u8]) -> Fields<'a>
        ensures { result ≡ fields_of line.now }
    {
        Fields { rest: Some(line) }
    }

    /// Takes the next field, where one is left.
    #[tactic(auto, using(crate::proofs::SplitLaws::fields_cut, crate::proofs::SplitLaws::fields_whole))]
    pub fn word(&mut self) -> Option<&'a [u8]>
        ensures some { IfSome result (λ word. self.old ≡ word.now ∷ self.new) }
        ensures none { IfNone result ((self.old ≡ []) × (self.new ≡ [])) }
    {
        let rest = self.rest?;
        match split_once(rest, b' ') {
            Some((word, behind)) => {
                self.rest = Some(behind);
                Some(word)
            }
            None => {
                self.rest = None;
                Some(rest)
            }
        }
    }

    /// Takes the next field, and reads it as a decimal number.
    pub fn decimal(&mut self) -> Option<Decimal>
        ensures number { result ≡ option_and_then decimal_in (slice_get self.old 0) }
        ensures taken { self.new ≡ drop 1 self.old }
    {
        read_decimal(self.word()?)
    }

    /// Takes the next field, and reads it as eight hexadecimal digits.
    pub fn hex8(&mut self) -> Option<u32>
        ensures number { result ≡ option_and_then (hex_in 8) (slice_get self.old 0) }
        ensures taken { self.new ≡ drop 1 self.old }
    {
        read_hex8(self.word()?)
    }

    /// Takes the next field, and reads it as four hexadecimal digits.
    pub fn hex4(&mut self) -> Option<u16>
        ensures number { result ≡ option_and_then (hex_in 4) (slice_get self.old 0) }
        ensures taken { self.new ≡ drop 1 self.old }
    {
        read_hex4(self.word()?)
    }

    /// Whether no field is left.
    pub fn is_end(&self) -> bool
        ensures { IsTrue result ↔ (self.now ≡ []) }
    {
        self.rest.is_none()
    }

    /// The rest of the line, with the spaces in it, where a field is left.
    #[tactic(auto, using(crate::proofs::SplitLaws::line_back))]
    pub fn rest(&self) -> Option<&'a [u8]>
        ensures some { IfSome result (λ rest. (rest.now ≡ line_of self.now) × (self.now ≡ fields_of rest.now)) }
        ensures none { IfNone result (self.now ≡ []) }
    {
        self.rest
    }
}
