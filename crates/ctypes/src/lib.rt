//! The types that a source means: what they are made of, how large they are, and what converts to what.
#![tactic(auto)]

mod base;
mod constant;
mod convert;
mod ctype;
mod extent;
mod leaves;
mod round;
mod step;

pub use base::{Base, BaseKind, StructId};
pub use constant::constant_sign;
pub use convert::{ConstRule, common, promoted};
pub use ctype::CType;
pub use extent::Extent;
pub use round::rounded;
pub use step::{Qualifiers, Step};

#[cfg(test)]
mod tests;
