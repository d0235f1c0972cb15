//! The files of a mode of the program: those that it reads, each of at most so many bytes, and those that it writes.
#![tactic(auto)]

mod fault;
mod input;
mod lines;
mod name;
mod output;
mod reading;
mod writing;

pub use fault::{InputFault, OutputFault};
pub use input::Input;
pub use lines::put_lines;
pub use name::Name;
pub use output::Output;
pub use reading::read_all;
pub use writing::write_all;

#[cfg(test)]
mod tests;
