//! Multiplication and division, which the PRU's core has no instructions for, as bodies of assembly items. Each takes its operands in R14
//! and R15, leaves the number in R14, and returns to the word that R3.w2 tells. It takes the same number of cycles on all operands.
#![tactic(auto)]

mod divide;
mod helper;
mod items;
mod multiply;
#[cfg(test)]
mod tests;

pub use divide::{divs, divu, rems, remu};
pub use helper::{Helper, cycles};
pub use multiply::mul;
