ghost use Rattle.std.specs.Prelude.{◌≡◌, ℕ, IsTrue, List, ◌∷◌, ◌++◌};
ghost use Rattle.midcode.specs.declared.op.Op.{Op};
ghost use Rattle.midcode.specs.Function.{Function, kinds};
ghost use Rattle.midcode.specs.Program.{Program};
ghost use Rattle.midopt.specs.Better.{IsBetter, IsBetterFunction};
ghost use Rattle.midopt.specs.Tidy.{is_idle};

/// Every program and function may stand for itself; and what may stand for one that may stand for a third may stand for that.
#[tactic(auto, using(crate::proofs::Relation::relation_rules))]
pub fn better_laws()
    ensures same { (p : Program) → IsBetter p p }
    ensures more { (p q r : Program) → IsBetter p q → IsBetter q r → IsBetter p r }
    ensures function_same { (f : Function) → IsBetterFunction f f }
    ensures function_more { (f g h : Function) → IsBetterFunction f g → IsBetterFunction g h → IsBetterFunction f h }
{}

/// A value that no operation of its function reads need not be computed.
#[tactic(auto, using(crate::proofs::Removed::idle_rules))]
pub fn idle_laws()
    ensures { (f : Function) (front back : List (ℕ × Op)) (node : ℕ) (o : Op) → f.nodes ≡ front ++ (node, o) ∷ back
        → IsTrue (is_idle (kinds f) o.kind) → IsBetterFunction f (record f { nodes = front ++ back }) }
{}
