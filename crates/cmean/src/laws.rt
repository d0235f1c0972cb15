//! What holds of every meaning.

ghost use Rattle.std.specs.Prelude.{◌≡◌, ◌≢◌, ◌≤◌, ◌++◌, ℕ, List, false};
ghost use Rattle.behaviour.specs.Ran.{goes_on};
ghost use Rattle.cprogram.specs.declared.program.Program.{Program};
ghost use Rattle.cmean.specs.State.{Shown};
ghost use Rattle.cmean.specs.Meaning.{mean};
ghost use Rattle.cmean.specs.Outcome.{outcome, shown, More};

/// More steps give the same, or go on from where fewer stood.
#[tactic(auto, using(crate::proofs::Longer::more_steps))]
pub fn more_steps()
    // A meaning that doesn't wait for more steps stands so with any more of them.
    ensures settled { (p : Program) (values : List ℕ) (few many : ℕ) → few ≤ many
        → goes_on (mean p values few) ≡ false → mean p values many ≡ mean p values few }

    // What is shown in fewer steps is a beginning of what is shown in more.
    ensures shown { (p : Program) (values : List ℕ) (few many : ℕ) → few ≤ many
        → (rest : List Shown) × (shown p values few ++ rest ≡ shown p values many) }
{}
