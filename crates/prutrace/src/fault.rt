ghost use Rattle.std.specs.Prelude.{◌≡◌};
ghost use Rattle.prutrace.specs.declared.fault.EventsFault.TheVariants.{Memory};

use std::alloc::{AllocError, AllocFailed};
use thiserror::Error;

/// Why a text was not read as events.
#[derive(Clone, Copy, Debug, PartialEq, Eq, Error)]
pub enum EventsFault {
    /// The first bad line, from 1.
    #[error("no events in line {0}")]
    Line(u32),
    #[error("memory")]
    Memory,
}

impl From<AllocError> for EventsFault {
    ghost from_gives = { λ _ e. e ≡ Memory };

    fn from(_: AllocError) -> EventsFault {
        EventsFault::Memory
    }
}

impl<T: Drop> From<AllocFailed<T>> for EventsFault {
    ghost from_gives = { λ _ e. e ≡ Memory };

    fn from(_: AllocFailed<T>) -> EventsFault {
        EventsFault::Memory
    }
}
