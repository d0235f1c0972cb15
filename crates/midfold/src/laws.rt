ghost use Rattle.std.specs.Prelude.{◌≡◌, ℕ};
ghost use Rattle.midcode.specs.Program.{Program};
ghost use Rattle.midcode.specs.Region.{is_plain, is_straight};
ghost use Rattle.midopt.specs.Better.{IsBetter};

/// A region is plain, and straight, where it was so in a program that this one may stand for.
#[tactic(auto, using(crate::proofs::Regions::region_rules))]
pub fn region_laws()
    ensures plain { (old new : Program) (region : ℕ) → IsBetter old new → is_plain new region ≡ is_plain old region }
    ensures straight { (old new : Program) (region : ℕ) → IsBetter old new → is_straight new region ≡ is_straight old region }
{}
