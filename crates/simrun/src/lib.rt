//! A run of two executables under a host script: from the bytes of the three to the texts that it leaves, or the first fault.
#![tactic(auto)]

mod fault;
mod run;
mod summary;
mod texts;

pub use fault::SimFault;
pub use run::simulate;
pub use texts::Texts;

#[cfg(test)]
mod tests;
