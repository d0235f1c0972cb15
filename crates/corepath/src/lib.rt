//! The paths of a region of a code, their sums, and what a certificate of them says where the code is the words of an image.
#![tactic(auto)]

mod laws;

pub use laws::pass_laws;
