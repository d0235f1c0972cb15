//! Tidying operations: values that nobody reads are no longer computed. What operations give on known numbers.
#![tactic(auto)]

mod idle;
mod laws;
mod marks;
mod numbers;
#[cfg(test)]
mod numbers_tests;
mod reads;
#[cfg(test)]
mod tests;

pub use idle::remove_idle;
pub use laws::{better_laws, idle_laws};
pub use numbers::{binary_number, unary_number, widened_number};
pub use reads::{register_of_value, registers_read};
