ghost use Rattle.std.specs.Prelude.{◌≡◌, ◌∷◌, [], ◌++◌, OnOk, IfErr, MatchBool};
ghost use Rattle.hostscript.specs.Acts.{InOrder};

use crate::action::Act;
use crate::cause::ScriptCause;
use crate::fault::LineFault;
use crate::line::Saying;
use std::alloc::Global;

/// What the lines so far say together.
#[derive(Drop)]
pub struct Draft {
    pub acts: Vec<Act>,
    pub arb0: Vec<u8>,
    pub arb1: Vec<u8>,
}

impl Draft {
    ghost use Rattle.hostscript.specs.Drafts.{Adds, Holds, CanFail};
    ghost use Rattle.hostscript.specs.Lines.{NamesCore};

    pub fn new(alloc: Global) -> Draft
        ensures { Holds result [] }
    {
        Draft {
            acts: Vec::new(alloc),
            arb0: Vec::new(alloc),
            arb1: Vec::new(alloc),
        }
    }

    /// Adds what the next line says.
    pub fn add(&mut self, said: Saying) -> Result<(), LineFault>
        requires { NamesCore said }
        ensures ok { OnOk result (Adds said self.old self.new) }
        ensures order { OnOk result (InOrder self.old.acts.items → InOrder self.new.acts.items) }
        ensures fault { IfErr result (CanFail said self.old.acts.items) }
    {
        match said {
            Saying::Nothing => Ok(()),
            Saying::Does(act) => {
                if falls(&self.acts, &act) {
                    return Err(LineFault::Cause(ScriptCause::Order));
                }
                self.acts.push(act)?;
                Ok(())
            }
            Saying::Waits { core, numbers } => {
                if core == 0 {
                    self.arb0.extend_from_slice(numbers.as_slice())?;
                } else {
                    self.arb1.extend_from_slice(numbers.as_slice())?;
                }
                Ok(())
            }
        }
    }
}

/// Whether the cycle falls from the last of these acts to this one.
fn falls(acts: &[Act], act: &Act) -> bool
    ensures { MatchBool result (InOrder (acts.now ++ act.now ∷ []) → ⊥) (InOrder acts.now → InOrder (acts.now ++ act.now ∷ [])) }
{
    match acts.last() {
        Some(last) => act.cycle < last.cycle,
        None => false,
    }
}
