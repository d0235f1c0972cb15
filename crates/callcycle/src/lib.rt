//! The call cycles of a program: the first call that stands in one, or that there is none.
#![tactic(auto)]

mod call;
mod component;
mod cycle;
mod laws;
mod reach;

pub use call::Call;
pub use cycle::first_in_cycle;
pub use laws::depth_laws;

#[cfg(test)]
mod tests;
