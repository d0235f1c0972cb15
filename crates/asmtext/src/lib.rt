//! Assembly text: read into the items of a program, and printed from them.
#![tactic(auto)]

mod cause;
mod items;
mod judge;
mod names;
mod numbers;
mod places;
mod printing;
mod reading;

pub use cause::{AsmCause, AsmFault};
pub use printing::print_asm;
pub use reading::read_asm;

#[cfg(test)]
mod tests;
