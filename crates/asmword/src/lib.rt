//! One instruction of assembly text: a mnemonic and its operands, printed and read.
#![tactic(auto)]

mod blank;
mod form;
mod kinds;
mod label;
mod laws;
mod make;
mod mnemonic;
mod moved;
mod number;
mod operand;
mod parts;
mod print;
mod read;
mod word;

pub use blank::{behind_blanks, split_word, trimmed};
pub use form::{Form, Operands, Word, form_of};
pub use kinds::{Kind, Shape};
pub use label::label_of;
pub use laws::{labels_are_found, printed_is_read_again, written_is_made};
pub use make::instruction;
pub use mnemonic::{MNEMONICS, Mnemonic};
pub use number::{read_number, read_numbered};
pub use parts::Parts;
pub use print::Printed;
pub use read::read_form;
pub use word::is_name;

#[cfg(test)]
mod tests;
