ghost use Rattle.std.specs.Prelude.{Some};
ghost use Rattle.asmword.specs.Texts.{field_text, word_text, operands_text, form_text};

use crate::form::{Form, Operands, Word};
use isa::Part;
use std::fmt;

/// An instruction as it is printed. Its label, where it has one, is an `L` and this number.
#[derive(Clone, Copy)]
pub struct Printed {
    pub form: Form,
    pub label: u32,
}

#[derive(Clone, Copy)]
struct FieldText {
    register: u64,
    part: Part,
}

#[derive(Clone, Copy)]
struct WordText {
    word: Word,
    label: u32,
}

#[derive(Clone, Copy)]
struct OperandsText {
    operands: Operands,
    label: u32,
}

impl fmt::Display for FieldText {
    ghost output = { λ t. Some (field_text t.register t.part) };

    fn fmt<W: fmt::Write>(&self, f: &mut fmt::Formatter<W>) -> fmt::Result {
        let register = self.register;
        match self.part {
            Part::B0 => write!(f, "R{register}.b0"),
            Part::B1 => write!(f, "R{register}.b1"),
            Part::B2 => write!(f, "R{register}.b2"),
            Part::B3 => write!(f, "R{register}.b3"),
            Part::W0 => write!(f, "R{register}.w0"),
            Part::W1 => write!(f, "R{register}.w1"),
            Part::W2 => write!(f, "R{register}.w2"),
            Part::All => write!(f, "R{register}"),
        }
    }
}

impl fmt::Display for WordText {
    ghost output = { λ t. Some (word_text t.label t.word) };

    fn fmt<W: fmt::Write>(&self, f: &mut fmt::Formatter<W>) -> fmt::Result {
        let label = self.label;
        match self.word {
            Word::Field { register, part } => write!(f, "{}", FieldText { register, part }),
            Word::Number(n) => write!(f, "{n}"),
            Word::Constant(n) => write!(f, "C{n}"),
            Word::Label => write!(f, "L{label}"),
        }
    }
}

impl fmt::Display for OperandsText {
    ghost output = { λ t. Some (operands_text t.label t.operands) };

    fn fmt<W: fmt::Write>(&self, f: &mut fmt::Formatter<W>) -> fmt::Result {
        let label = self.label;
        match self.operands {
            Operands::Nothing => Ok(()),
            Operands::One(word) => write!(f, " {}", WordText { word, label }),
            Operands::Two(a, b) => {
                let a = WordText { word: a, label };
                let b = WordText { word: b, label };
                write!(f, " {a}, {b}")
            }
            Operands::Three(a, b, c) => {
                let a = WordText { word: a, label };
                let b = WordText { word: b, label };
                let c = WordText { word: c, label };
                write!(f, " {a}, {b}, {c}")
            }
            Operands::Four(a, b, c, d) => {
                let a = WordText { word: a, label };
                let b = WordText { word: b, label };
                let c = WordText { word: c, label };
                let d = WordText { word: d, label };
                write!(f, " {a}, {b}, {c}, {d}")
            }
        }
    }
}

impl fmt::Display for Printed {
    ghost output = { λ p. Some (form_text p.label p.form) };

    fn fmt<W: fmt::Write>(&self, f: &mut fmt::Formatter<W>) -> fmt::Result {
        let operands = OperandsText {
            operands: self.form.operands,
            label: self.label,
        };
        write!(f, "{}{operands}", self.form.mnemonic.name())
    }
}
