//! The preprocessor (C99 6.10, in this project's subset): macros without parameters, `#ifdef`, `#ifndef`, `#else`, `#endif` and
//! `#include <stdint.h>`.
#![tactic(auto)]

mod copy;
mod directive;
mod fault;
mod laws;
mod line;
mod macros;
mod replace;
mod source;
mod state;
mod table;

pub use laws::{expansion_ends, expansion_or_fault, one_reading};
pub use source::expand;

#[cfg(test)]
mod tests;
