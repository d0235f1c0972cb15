ghost use Rattle.std.specs.Prelude.{◌≡◌};
ghost use Rattle.prucc.specs.declared.status.Status.TheVariants.{NoMemory};
ghost use Rattle.prucc.specs.StatusOf.{number_of, status_of, unread, unwritten};

use crate::refusal::Refusal;
use csyn::{Cause, Span};
use hostscript::ScriptCause;
use modefiles::{InputFault, Name, OutputFault};
use pruelf::LoadCause;
use prunum::Memory;
use std::alloc::AllocError;
use thiserror::Error;

/// How the program ends.
#[derive(Debug, Drop, Error)]
pub enum Status {
    #[error("done")]
    Done,
    /// The first rule that the source of this core breaks, and where.
    #[error("source {core} {span} {cause}")]
    Source {
        core: u8,
        span: Span,
        cause: Cause,
    },
    /// The words ask for nothing that the program does.
    #[error("words")]
    Words,
    /// The first bad line of the script, from 1.
    #[error("script {line} {cause:?}")]
    Script {
        line: u32,
        cause: ScriptCause,
    },
    #[error("read {name}")]
    ReadFault {
        name: Name,
    },
    /// The name is `-` for the sink.
    #[error("write {name}")]
    WriteFault {
        name: Name,
    },
    /// The file has more than this number of bytes.
    #[error("long {name} {max}")]
    TooLong {
        name: Name,
        max: u32,
    },
    /// The first fault of an executable, with the offset of the field's first byte.
    #[error("elf {name} {offset} {cause:?}")]
    Elf {
        name: Name,
        offset: u32,
        cause: LoadCause,
    },
    #[error("memory")]
    NoMemory,
    /// What stands at this place is read by a later stage of the program.
    #[error("notbuilt {name} {span}")]
    NotBuilt {
        name: Name,
        span: Span,
    },
}

impl Status {
    /// The program's exit status.
    pub fn number(&self) -> u8
        ensures { result ≡ number_of self.now }
    {
        match self {
            Status::Done => 0,
            Status::Source { .. } => 1,
            Status::Words => 2,
            Status::Script { .. } => 5,
            Status::ReadFault { .. } => 6,
            Status::WriteFault { .. } => 7,
            Status::TooLong { .. } => 8,
            Status::Elf { .. } => 9,
            Status::NoMemory => 14,
            Status::NotBuilt { .. } => 16,
        }
    }
}

impl From<Memory> for Status {
    ghost from_gives = { λ _ s. s ≡ NoMemory };

    fn from(_: Memory) -> Self {
        Status::NoMemory
    }
}

impl From<AllocError> for Status {
    ghost from_gives = { λ _ s. s ≡ NoMemory };

    fn from(_: AllocError) -> Self {
        Status::NoMemory
    }
}

impl From<InputFault> for Status {
    ghost from_gives = { λ fault s. s ≡ unread fault };

    fn from(fault: InputFault) -> Self {
        match fault {
            InputFault::Failed(name) => Status::ReadFault { name },
            InputFault::TooLong { name, max } => Status::TooLong { name, max },
            InputFault::NoMemory => Status::NoMemory,
        }
    }
}

impl From<Refusal> for Status {
    ghost from_gives = { λ refusal s. s ≡ status_of refusal };

    fn from(refusal: Refusal) -> Self {
        match refusal {
            Refusal::Source { core, span, cause } => Status::Source { core, span, cause },
            Refusal::Script { line, cause } => Status::Script { line, cause },
            Refusal::Elf {
                name,
                offset,
                cause,
            } => Status::Elf {
                name,
                offset,
                cause,
            },
            Refusal::NotBuilt { name, span } => Status::NotBuilt { name, span },
            Refusal::NoMemory => Status::NoMemory,
        }
    }
}

impl From<OutputFault> for Status {
    ghost from_gives = { λ fault s. s ≡ unwritten fault };

    fn from(fault: OutputFault) -> Self {
        match fault {
            OutputFault::Failed(name) => Status::WriteFault { name },
            OutputFault::NoMemory => Status::NoMemory,
        }
    }
}
