//! From the bytes of a source to what it writes.

ghost use Rattle.std.specs.Prelude.{◌≡◌, ◌≤◌, length, IfOk, IfErr};
ghost use Rattle.prucc.specs.Source.{IsTreeOf, IsFaultOf, Writes};
ghost use Rattle.prucc.specs.SourceAnswer.{refusal_of, refusal_at, Refuses};

use crate::form::{FormFault, writes_of};
use clex::tokens;
use cparse::parse;
use cpre::expand;
use csyn::{Cause, SourceFault, Span, Tree};
use std::alloc::Global;

/// The most bytes of a source.
pub const MAX_SOURCE: u32 = 65_536;

/// Why a source gives no writes.
#[derive(Clone, Copy, Debug, PartialEq, Eq)]
pub enum SourceRefusal {
    /// The first rule that is broken, and where.
    Broken { span: Span, cause: Cause },
    /// What stands here is read by a later stage of the program.
    NotBuilt(Span),
    Memory,
}

impl From<SourceFault> for SourceRefusal {
    ghost from_gives = { λ fault e. e ≡ refusal_of fault };

    fn from(fault: SourceFault) -> Self {
        match fault {
            SourceFault::Broken { span, cause } => SourceRefusal::Broken { span, cause },
            SourceFault::Memory => SourceRefusal::Memory,
        }
    }
}

impl From<FormFault> for SourceRefusal {
    ghost from_gives = { λ fault e. e ≡ refusal_at fault };

    fn from(fault: FormFault) -> Self {
        match fault {
            FormFault::At(span) => SourceRefusal::NotBuilt(span),
            FormFault::Memory => SourceRefusal::Memory,
        }
    }
}

/// The tree of a source; or the first rule that it breaks, and where.
#[tactic(auto, using(crate::proofs::SourceParts::tokens_broken, crate::proofs::SourceParts::expansion_broken))]
pub fn read_tree(alloc: Global, bytes: &[u8]) -> Result<Tree, SourceFault>
    requires { length bytes.now ≤ MAX_SOURCE }
    ensures tree { IfOk result (λ tree. IsTreeOf tree bytes.now) }
    ensures broken { IfErr result (IsFaultOf bytes.now) }
{
    let written = tokens(alloc, bytes)?;
    let tokens = expand(alloc, &written)?;
    let tree = parse(alloc, &tokens)?;
    Ok(tree)
}

/// The constants that a source of the form writes.
#[tactic(auto, using(crate::proofs::SourceParts::fault_refuses, crate::proofs::SourceParts::form_refuses))]
pub fn read_source(alloc: Global, bytes: &[u8]) -> Result<Vec<u16>, SourceRefusal>
    requires { length bytes.now ≤ MAX_SOURCE }
    ensures writes { IfOk result (λ writes. Writes bytes.now writes.items) }
    ensures err { IfErr result (Refuses bytes.now) }
{
    let tree = read_tree(alloc, bytes)?;
    Ok(writes_of(alloc, &tree)?)
}
