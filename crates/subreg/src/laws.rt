ghost use Rattle.std.specs.Prelude.{◌≡◌, ℕ};
ghost use Rattle.midcode.specs.declared.register.VReg.{VReg};
ghost use Rattle.midcode.specs.Function.{Function};
ghost use Rattle.subreg.specs.Span.{IsSpan};

/// A virtual register has one span at most.
#[tactic(auto, using(crate::proofs::Spans::same_span))]
pub fn one_span()
    ensures { (f : Function) (v : VReg) (a b c d : ℕ) → IsSpan f v a b → IsSpan f v c d → (a ≡ c) × (b ≡ d) }
{}
