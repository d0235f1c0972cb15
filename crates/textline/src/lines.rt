ghost use Rattle.std.specs.Prelude.{◌≡◌, ◌↔◌, ◌+◌, ◌<◌, ◌^◌, [], ◌∷◌, ◌++◌, length, IsTrue, IfSome, IfNone};
ghost use Rattle.textline.specs.Lines.{Lacks, lines_of, TakesLine};

use crate::cut::split_once;
use std::marker::Model;

/// The lines of a text that are still to be read, with their numbers from 1.
#[derive(Drop)]
pub struct Lines<'a> {
    number: u32,
    text: &'a [u8],
}

impl<'a> Model for Lines<'a> {
    ghost use Rattle.std.specs.Prelude.{◌+◌, ◌<◌, ◌^◌, length};
    ghost use Rattle.textline.specs.Lines.{Ahead};

    ghost Value = { Ahead };

    ghost view = { λ a. record { number = a.number; text = a.text.now } };

    ghost invariant = { λ a. a.number + length a.text.now < 2 ^ 32 };
}

impl<'a> Lines<'a> {
    /// All the lines of the text.
    pub fn of(text: &'a [u8]) -> Lines<'a>
        requires { length text.now + 1 < 2 ^ 32 }
        ensures { result ≡ record { number = 1; text = text.now } }
    {
        Lines { number: 1, text }
    }

    /// The number of the next line, from 1.
    pub fn number(&self) -> u32
        ensures { result ≡ self.now.number }
    {
        self.number
    }

    /// Whether no byte is left.
    pub fn is_end(&self) -> bool
        ensures { IsTrue result ↔ (self.now.text ≡ []) }
    {
        self.text.is_empty()
    }

    /// Takes the next line, without its end. The last may lack its end. `None` where no byte is left.
    #[tactic(auto, using(crate::proofs::SplitLaws::lines_cut, crate::proofs::SplitLaws::lines_whole))]
    pub fn next_line(&mut self) -> Option<&'a [u8]>
        ensures line { IfSome result (λ line. TakesLine self.old.text line.now self.new.text) }
        ensures some { IfSome result (λ line. lines_of self.old.text ≡ line.now ∷ lines_of self.new.text) }
        ensures number { IfSome result (λ _. self.new.number ≡ self.old.number + 1) }
        ensures shorter { IfSome result (λ _. length self.new.text < length self.old.text) }
        ensures none { IfNone result ((self.old.text ≡ []) × (self.new ≡ self.old)) }
    {
        if self.text.is_empty() {
            return None;
        }
        self.number += 1;
        match split_once(self.text, b'\n') {
            Some((line, behind)) => {
                self.text = behind;
                Some(line)
            }
            None => {
                let line = self.text;
                self.text = &[];
                Some(line)
            }
        }
    }

    /// Takes the next line, without its end. `None` where no line with its end is left; then nothing is taken.
    pub fn next_whole(&mut self) -> Option<&'a [u8]>
        ensures some { IfSome result (λ line. Lacks 10 line.now × (self.old.text ≡ line.now ++ 10 ∷ self.new.text)) }
        ensures number { IfSome result (λ _. self.new.number ≡ self.old.number + 1) }
        ensures none { IfNone result (Lacks 10 self.old.text × (self.new ≡ self.old)) }
    {
        let (line, behind) = split_once(self.text, b'\n')?;
        self.number += 1;
        self.text = behind;
        Some(line)
    }
}
