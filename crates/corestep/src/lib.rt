//! One core of the PRU subsystem: a word at a time, and how many cycles it takes.
#![tactic(auto)]

mod bytes;
mod compute;
mod effect;
mod fields;
mod goes;
mod marks;
mod memory;
mod onward;
mod out;
mod pieces;
mod state;
mod table;
#[cfg(test)]
mod tests;
mod words;

pub use goes::Goes;
pub use memory::PRIVATE_BYTES;
pub use onward::Turning;
pub use out::{Events, Input, Need, StepOut, Stop, Stored};
pub use state::Core;
pub use table::{Class, Table, cost};
pub use words::{need, step};
