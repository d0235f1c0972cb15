ghost use Rattle.std.specs.Prelude.{◌≡◌};
ghost use Rattle.csyn.specs.declared.fault.SourceFault.TheVariants.{Memory};

use crate::cause::Cause;
use crate::span::Span;
use std::alloc::{AllocError, AllocFailed};
use thiserror::Error;

/// Why a source was refused.
#[derive(Clone, Copy, Debug, PartialEq, Eq, Error)]
pub enum SourceFault {
    /// The first rule that is broken, and where.
    #[error("{span} {cause}")]
    Broken { span: Span, cause: Cause },
    #[error("memory")]
    Memory,
}

impl From<AllocError> for SourceFault {
    ghost from_gives = { λ _ e. e ≡ Memory };

    fn from(_: AllocError) -> Self {
        SourceFault::Memory
    }
}

impl<T: Drop> From<AllocFailed<T>> for SourceFault {
    ghost from_gives = { λ _ e. e ≡ Memory };

    fn from(_: AllocFailed<T>) -> Self {
        SourceFault::Memory
    }
}
