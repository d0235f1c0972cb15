ghost use Rattle.std.specs.Prelude.{◌≡◌};
ghost use Rattle.cparts.specs.declared.fault.MakeFault.TheVariants.{Memory};

use std::alloc::{AllocError, AllocFailed};

/// Why a production makes nothing.
#[derive(Clone, Copy, Debug, PartialEq, Eq)]
pub enum MakeFault {
    /// The tokens or the values are not those of such a production.
    Parts,
    /// No memory is left.
    Memory,
}

impl From<AllocError> for MakeFault {
    ghost from_gives = { λ _ e. e ≡ Memory };

    fn from(_: AllocError) -> Self {
        MakeFault::Memory
    }
}

impl<T: Drop> From<AllocFailed<T>> for MakeFault {
    ghost from_gives = { λ _ e. e ≡ Memory };

    fn from(_: AllocFailed<T>) -> Self {
        MakeFault::Memory
    }
}
