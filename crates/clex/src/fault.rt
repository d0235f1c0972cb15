ghost use Rattle.std.specs.Prelude.{◌≡◌};
ghost use Rattle.clex.specs.declared.fault.PieceFault.TheVariants.{Memory};

use csyn::{Cause, SourceFault, Span};
use std::alloc::AllocError;

/// Why no piece was read.
#[derive(Clone, Copy, Debug, PartialEq, Eq)]
pub enum PieceFault {
    /// Neither white space nor a token stands there.
    Broken(Cause),
    Memory,
}

impl PieceFault {
    ghost use Rattle.clex.specs.Given.{fault_at};

    /// The fault of a source in which the piece is wanted at a place.
    pub fn at(self, span: Span) -> SourceFault
        ensures { result ≡ fault_at self span }
    {
        match self {
            PieceFault::Broken(cause) => SourceFault::Broken { span, cause },
            PieceFault::Memory => SourceFault::Memory,
        }
    }
}

impl From<AllocError> for PieceFault {
    ghost from_gives = { λ _ e. e ≡ Memory };

    fn from(_: AllocError) -> Self {
        PieceFault::Memory
    }
}
