ghost use Rattle.std.specs.Prelude.{◌≡◌, ◌↔◌, [], ◌∷◌, IsTrue, IfSome, IfNone};
ghost use Rattle.asmword.specs.Blanks.{parts_of, operand_parts};

use crate::blank::behind_blanks;
use std::marker::Model;
use textline::split_once;

/// The parts of a text that are still to be read, with bytes of one value between them.
#[derive(Drop)]
pub struct Parts<'a> {
    byte: u8,
    rest: Option<&'a [u8]>,
}

impl<'a> Model for Parts<'a> {
    ghost use Rattle.std.specs.Prelude.{List, ℕ};

    ghost Value = { List (List ℕ) };

    ghost use Rattle.asmword.specs.Parts.{parts_left};

    ghost view = { parts_left };
}

impl<'a> Parts<'a> {
    /// All the parts. A text with no bytes has one, an empty one.
    pub fn of(text: &'a [u8], byte: u8) -> Parts<'a>
        ensures { result ≡ parts_of byte text.now }
    {
        Parts {
            byte,
            rest: Some(text),
        }
    }

    /// Operands, with commas between them. A text of blanks has none.
    #[tactic(auto, unfolding(crate::specs::Blanks::operand_parts))]
    pub fn of_operands(text: &'a [u8]) -> Parts<'a>
        ensures { result ≡ operand_parts text.now }
    {
        if behind_blanks(text).is_empty() {
            Parts {
                byte: b',',
                rest: None,
            }
        } else {
            Parts::of(text, b',')
        }
    }

    /// Takes the next part, where one is left.
    #[tactic(auto, using(crate::proofs::PartLaws::parts_cut, crate::proofs::PartLaws::parts_whole))]
    pub fn part(&mut self) -> Option<&'a [u8]>
        ensures some { IfSome result (λ part. self.old ≡ part.now ∷ self.new) }
        ensures none { IfNone result ((self.old ≡ []) × (self.new ≡ [])) }
    {
        let rest = self.rest?;
        match split_once(rest, self.byte) {
            Some((part, behind)) => {
                self.rest = Some(behind);
                Some(part)
            }
            None => {
                self.rest = None;
                Some(rest)
            }
        }
    }

    /// Whether no part is left.
    pub fn is_end(&self) -> bool
        ensures { IsTrue result ↔ (self.now ≡ []) }
    {
        self.rest.is_none()
    }
}
