//! The pieces of every text of this project: lines, the fields of a line, and numbers, printed and read again.
#![tactic(auto)]

mod cut;
mod fields;
mod hex;
mod laws;
mod lines;
mod number;

pub use cut::split_once;
pub use fields::Fields;
pub use hex::{Hex4, Hex8};
pub use laws::{fields_are_read_again, lines_are_read_again};
pub use lines::Lines;
pub use number::{Decimal, read_decimal, read_hex4, read_hex8};

#[cfg(test)]
mod tests;
