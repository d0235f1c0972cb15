//! Resource tables of traces, as bytes, both ways.
//!
//! The form is that of the table which Linux's remoteproc reads: numbers are words of four bytes,
//! the lowest first, and an entry of type 2 is a trace buffer. That a table has traces alone, in 48
//! bytes each and without gaps, is this project's own.
#![tactic(auto)]

mod building;
mod fault;
mod name;
mod reading;
mod trace;

pub use building::build;
pub use fault::TableFault;
pub use name::{Name, is_name};
pub use reading::read;
pub use trace::Trace;

#[cfg(test)]
mod tests;
