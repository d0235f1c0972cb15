ghost use Rattle.std.specs.Prelude.{◌≡◌};
ghost use Rattle.cpre.specs.declared.fault.ItemFault.TheVariants.{Memory};

use csyn::{Cause, SourceFault, Span};
use std::alloc::{AllocError, AllocFailed};

/// Why there is nothing behind an item.
#[derive(Clone, Copy)]
pub enum ItemFault {
    /// The rule that is broken at the item.
    Broken(Cause),
    Memory,
}

impl ItemFault {
    ghost use Rattle.cpre.specs.Given.{fault_at};

    /// The fault of a source whose item begins there.
    pub fn at(self, span: Span) -> SourceFault
        ensures { result ≡ fault_at self span }
    {
        match self {
            ItemFault::Broken(cause) => SourceFault::Broken { span, cause },
            ItemFault::Memory => SourceFault::Memory,
        }
    }
}

impl From<AllocError> for ItemFault {
    ghost from_gives = { λ _ e. e ≡ Memory };

    fn from(_: AllocError) -> Self {
        ItemFault::Memory
    }
}

impl<T: Drop> From<AllocFailed<T>> for ItemFault {
    ghost from_gives = { λ _ e. e ≡ Memory };

    fn from(_: AllocFailed<T>) -> Self {
        ItemFault::Memory
    }
}
