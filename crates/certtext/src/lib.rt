//! Certificates of timed regions, and the file that tells them: printed in its second edition, read in both.
#![tactic(auto)]

mod cert;
mod edition;
mod fault;
mod fields;
mod group;
mod order;
mod print;
mod read;
mod saying;

pub use cert::{Cause, Cert, CertLine, Label, Labels, Refusal};
pub use fault::CertsFault;
pub use print::print_certs;
pub use read::{CertFile, read_certs};

#[cfg(test)]
mod tests;
