//! One line of assembly text: a label, and a note or an instruction, printed and read.
#![tactic(auto)]

mod laws;
mod line;
mod note;
mod print;
mod read;

pub use laws::printed_lines_are_read_again;
pub use line::{Line, Statement};
pub use print::PrintedLine;
pub use read::read_line;

#[cfg(test)]
mod tests;
