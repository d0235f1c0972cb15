ghost use Rattle.std.specs.Prelude.{◌≡◌, ◌≤◌, ◌++◌, ℕ, List, length, Some, false};
ghost use Rattle.isa.specs.declared.inst.Inst.{Inst};
ghost use Rattle.isa.specs.Image.{Contents};
ghost use Rattle.behaviour.specs.Ran.{Done, goes_on};
ghost use Rattle.corestep.specs.declared.out.Input.{Input};
ghost use Rattle.corestep.specs.declared.out.Stop.TheVariants.{Going};
ghost use Rattle.corestep.specs.Core.{State};
ghost use Rattle.corestep.specs.Effect.{Given};
ghost use Rattle.corestep.specs.Step.{istep, inst_at, stepped};
ghost use Rattle.corerun.specs.Code.{code_step, code_of_words, IsNumbered};
ghost use Rattle.corerun.specs.Fits.{CoreFits, InputFits, StepFits};
ghost use Rattle.corerun.specs.Solo.{Alone, solo, alone_step, after_step};
ghost use Rattle.corerun.specs.Values.{values_of};

/// Words are a code under the numbering that gives each place its own number, and a core's step over it is its step over the words.
#[tactic(auto, using(crate::proofs::WordLemmas::words_step, crate::proofs::WordLemmas::words_numbered))]
pub fn word_laws()
    ensures numbered { (image : Contents) → IsNumbered (code_of_words image) }
    ensures step { (image : Contents) (s : State) (g : Given) → istep image s g ≡ code_step (code_of_words image) s g }
{}

/// A core alone that goes on, over the values that its next word reads in the machine, does what the word does there, and takes just
/// these values.
#[tactic(auto, using(crate::proofs::AloneFollows::alone_follows))]
pub fn follow_laws()
    ensures { (image : Contents) (s : Alone) (input : Input) (i : Inst) (values : List ℕ)
        → InputFits s.core.registers input → s.stands ≡ Going
        → inst_at image.words s.core.pc ≡ Some i → s.left ≡ values_of (stepped image s.core input).out.events ++ values
        → alone_step image s ≡ Done tt (after_step s values (stepped image s.core input)) }
{}

/// With a greater budget a run of a core alone that is settled stays as it is.
#[tactic(auto, using(crate::proofs::AloneLemmas::settled))]
pub fn alone_laws()
    ensures settled { (image : Contents) (values : List ℕ) (n m : ℕ) → n ≤ m → goes_on (solo image values n) ≡ false
        → solo image values m ≡ solo image values n }
{}

/// A word keeps the sizes and ranges of what its core holds, and stores bytes. It shows at most 36 events.
pub fn size_laws()
    ensures keeps { (image : Contents) (s : State) (input : Input) → CoreFits s → InputFits s.registers input
        → StepFits (stepped image s input) }
    ensures few { (image : Contents) (s : State) (input : Input) → length (stepped image s input).out.events ≤ 36 }
{}
