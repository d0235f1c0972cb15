//! Executables, which a core is loaded from, written in their one form: each part stands behind the one before it, with
//! bytes of 0 up to a multiple of 4. `pruelf` reads what is written here as the same image.
#![tactic(auto)]

mod bytes;
mod extra;
mod front;
mod image;
mod ranges;
mod room;
mod sections;
mod symbols;
mod writing;

pub use extra::{Extra, are_defined};
pub use room::can_be_written;
pub use writing::{write_exec, write_image};

#[cfg(test)]
mod tests;
