ghost use Rattle.std.specs.Prelude.{Some};
ghost use Rattle.csyn.specs.Span.{span_text};

use std::fmt;

/// A place in a source: its line and the byte's column in the line, both counted from 1. A tab is one column.
#[derive(Clone, Copy, Debug, PartialEq, Eq, PartialOrd, Ord, Hash)]
pub struct Span {
    pub line: u32,
    pub column: u32,
}

impl fmt::Display for Span {
    ghost output = { λ span. Some (span_text span) };

    fn fmt<W: fmt::Write>(&self, f: &mut fmt::Formatter<W>) -> fmt::Result {
        let line = self.line;
        let column = self.column;
        write!(f, "{line}:{column}")
    }
}
