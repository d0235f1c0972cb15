ghost use Rattle.std.specs.Prelude.{◌≡◌};
ghost use Rattle.certtext.specs.declared.fault.CertsFault.TheVariants.{Memory};

use std::alloc::{AllocError, AllocFailed};
use thiserror::Error;

/// Why a text was not read as certificates.
#[derive(Clone, Copy, Debug, PartialEq, Eq, Error)]
pub enum CertsFault {
    /// The first bad line, from 1.
    #[error("no certificates in line {0}")]
    Line(u32),
    #[error("memory")]
    Memory,
}

impl From<AllocError> for CertsFault {
    ghost from_gives = { λ _ e. e ≡ Memory };

    fn from(_: AllocError) -> CertsFault {
        CertsFault::Memory
    }
}

impl<T: Drop> From<AllocFailed<T>> for CertsFault {
    ghost from_gives = { λ _ e. e ≡ Memory };

    fn from(_: AllocFailed<T>) -> CertsFault {
        CertsFault::Memory
    }
}

impl From<prunum::Memory> for CertsFault {
    ghost from_gives = { λ _ e. e ≡ Memory };

    fn from(_: prunum::Memory) -> CertsFault {
        CertsFault::Memory
    }
}
