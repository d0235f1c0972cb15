//! ELF files of PRU programs: executables, which a core is loaded from, and objects, which are linked.
//!
//! The files are 32-bit little-endian ELF files of one written form, this project's own: each part stands behind the one
//! before it, with bytes of 0 up to a multiple of 4. So each field has the one value, or one of the few, that what was
//! judged before it leaves.
#![tactic(auto)]

mod executable;
mod fault;
mod fields;
mod form;
mod header;
mod loading;
mod notes;
mod plan;
mod resources;
mod sections;
mod segments;
mod span;
mod spans;
mod symbol;
mod symbols;
mod words;

pub use executable::SECTION_NAMES;
pub use fault::{LoadCause, LoadFault};
pub use form::Form;
pub use header::IDENTIFICATION;
pub use loading::load;
pub use plan::{Plan, padding};
pub use symbol::{Sym, SymbolName, SymbolPart};

#[cfg(test)]
mod tests;
