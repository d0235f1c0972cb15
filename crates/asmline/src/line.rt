//! What lines say.

ghost use Rattle.std.specs.Prelude.{◌≡◌};
ghost use Rattle.asmline.specs.Said.{said_by, saying_of, saying_fits};

use asmword::{Form, instruction};
use isa::NoteKind;

/// What stands on a line behind its label. Numbers may be out of their ranges; of a note's, 2^32 stands for each that is greater.
#[derive(Clone, Copy)]
pub enum Statement<'a> {
    Nothing,
    /// A note on the next word.
    Note { kind: NoteKind, value: u64 },
    /// An instruction that refers to no label.
    Whole(Form),
    /// An instruction, and the name of the label that it refers to.
    Aimed { form: Form, name: &'a [u8] },
}

/// A line: the name of the label that it begins with, where one stands, and what stands behind it.
#[derive(Clone, Copy)]
pub struct Line<'a> {
    pub label: Option<&'a [u8]>,
    pub statement: Statement<'a>,
}

impl<'a> Line<'a> {
    /// Whether all its numbers and registers are in their ranges.
    pub fn fits(&self) -> bool
        ensures { result ≡ saying_fits (said_by self.now).saying }
    {
        match self.statement {
            Statement::Nothing => true,
            Statement::Note { kind, value } => value_fits(kind, value),
            Statement::Whole(form) => instruction(form).is_some(),
            Statement::Aimed { form, .. } => instruction(form).is_some(),
        }
    }
}

fn value_fits(kind: NoteKind, value: u64) -> bool
    ensures { result ≡ saying_fits (saying_of (Statement.Note kind value)) }
{
    if value < 1 << 32 {
        kind.allows(value as u32)
    } else {
        false
    }
}
