ghost use Rattle.std.specs.Prelude.{Some};
ghost use Rattle.asmline.specs.Printing.{line_text};

use crate::note::kind_name;
use asmword::Printed;
use isa::NoteKind;
use std::fmt;

/// A line as it is printed, without its end.
#[derive(Clone, Copy)]
pub enum PrintedLine {
    /// The place of a label: an `L`, its number and a colon.
    Label(u32),
    Note { kind: NoteKind, value: u32 },
    Word(Printed),
}

impl fmt::Display for PrintedLine {
    ghost output = { λ line. Some (line_text line) };

    fn fmt<W: fmt::Write>(&self, f: &mut fmt::Formatter<W>) -> fmt::Result {
        match *self {
            PrintedLine::Label(n) => write!(f, "L{n}:"),
            PrintedLine::Note { kind, value } => write!(f, ".note {} {value}", kind_name(kind)),
            PrintedLine::Word(printed) => write!(f, "{printed}"),
        }
    }
}
