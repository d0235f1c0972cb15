ghost use Rattle.std.specs.Prelude.{◌≡◌, ◌≤◌, ℕ, false};
ghost use Rattle.behaviour.specs.Ran.{Ran, Done, and_then, goes_on, Turn, turns};
ghost use Rattle.behaviour.specs.Machine.{exec, Reaches};

/// One run after another.
#[tactic(auto, using(crate::proofs::RanLemmas::and_then_rules))]
pub fn and_then_laws<U, S, A, B, C>()
    ensures assoc { (r : Ran U S A) (f : A → S → Ran U S B) (g : B → S → Ran U S C)
        → and_then (and_then r f) g ≡ and_then r (λ a s. and_then (f a s) g) }
    ensures done { (r : Ran U S A) → and_then r Done ≡ r }
{}

/// A run that is settled stays as it is with more budget.
#[tactic(auto, using(crate::proofs::ExtendsLemmas::settled_rules))]
pub fn settled_laws<U, S, A>()
    ensures steps { (step : S → Ran U S (Unit {0})) (n m : ℕ) (s : S)
        → n ≤ m → goes_on (exec step n s) ≡ false → exec step m s ≡ exec step n s }
    ensures turns { (turn : S → Ran U S (Turn A)) (n m : ℕ) (s : S)
        → n ≤ m → goes_on (turns n turn s) ≡ false → turns m turn s ≡ turns n turn s }
{}

/// Coming from one state of a machine to another.
#[tactic(auto, using(crate::proofs::MachineLemmas::reaches_rules))]
pub fn reaches_laws<U, M>()
    ensures same { (step : M → Ran U M (Unit {0})) (m : M) → Reaches step m m }
    ensures one { (step : M → Ran U M (Unit {0})) (m n : M) → step m ≡ Done tt n → Reaches step m n }
    ensures more { (step : M → Ran U M (Unit {0})) (a b c : M) → Reaches step a b → Reaches step b c → Reaches step a c }
{}
