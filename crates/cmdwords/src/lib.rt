//! The words of a command in their written form, read by `clap`: the mode first, then the mode's places, with its options
//! at any place behind the mode.
#![tactic(auto)]

mod form;
pub mod laws;
mod modes;
mod place;
mod reader;
mod value;

pub use form::Form;
pub use modes::Mode;
pub use place::Place;
pub use reader::{Given, read};
pub use value::Value;

#[cfg(test)]
mod tests;
