ghost use Rattle.std.specs.Prelude.{ℕ, ◌+◌, ◌≤◌};
ghost use Rattle.cmean.specs.State.{State, tick};
ghost use Rattle.lowerstate.specs.Counted.{Counted};
ghost use Rattle.lowerstate.specs.Related.{Fixed, Call, IsCall, Point, Related, stepped};
ghost use Rattle.lowerstate.specs.Stands.{IsEven, Does};
ghost use Rattle.lowerstate.specs.PieceLaws.{ConstantLaw, MinusLaw, ComplementLaw, BinaryLaw, ComparisonLaw, LeftmostLaw};
ghost use Rattle.lowerstate.specs.PieceLaws.{LabelLaw, JumpLaw, BranchLaw};
ghost use Rattle.lowerstate.specs.PieceLaws.{NodeLaw, SequenceLaw, EventLaw, LocalLaw, AssignLaw, ConversionLaw, NotLaw};

/// What the meaning's acts do to related states.
#[tactic(auto, using(crate::proofs::Laws::act_rules))]
pub fn acts()
    // A step pays 512 cycles, and is one more since the last solid operation; where the budget is spent, both wait.
    ensures tick { (r : Fixed) (c : Call) (x : Point) (s : State) (m : Counted) (hand : ℕ) → hand ≤ x.hand + 512 → x.owed ≤ r.most
        → Related r c x s m → Does r (λ _. Related r c (stepped x hand)) (tick r.budget s) m }

    // Related states have shown the same, in time.
    ensures even { (r : Fixed) (c : Call) (x : Point) (s : State) (m : Counted) → x.owed ≤ r.most → Related r c x s m → IsEven r s m }
{}

/// What an operation does whose only effect is an event.
pub fn events()
    ensures event { (r : Fixed) (c : Call) → IsCall r c → EventLaw r c }
{}

/// A number, as a piece of code.
#[tactic(auto, using(crate::proofs::Numbers::piece_rules))]
pub fn constants()
    ensures constant { (r : Fixed) (c : Call) → IsCall r c → ConstantLaw r c }
{}

/// Operators on numbers, as pieces of code.
pub fn operators()
    ensures minus { (r : Fixed) (c : Call) → IsCall r c → MinusLaw r c }
    ensures complement { (r : Fixed) (c : Call) → IsCall r c → ComplementLaw r c }
    ensures binary { (r : Fixed) (c : Call) → IsCall r c → BinaryLaw r c }
    ensures comparison { (r : Fixed) (c : Call) → IsCall r c → ComparisonLaw r c }
    ensures leftmost { (r : Fixed) (c : Call) → IsCall r c → LeftmostLaw r c }
{}

/// Expressions, one after another.
pub fn sequences()
    ensures node { (r : Fixed) (c : Call) → NodeLaw r c }
    ensures sequence { (r : Fixed) (c : Call) → SequenceLaw r c }
{}

/// Locals that are registers: what they hold, and an assignment.
pub fn locals()
    ensures local { (r : Fixed) (c : Call) → IsCall r c → LocalLaw r c }
    ensures assignment { (r : Fixed) (c : Call) → IsCall r c → AssignLaw r c }
{}

/// Conversions of values, and `!`.
pub fn conversions()
    ensures conversion { (r : Fixed) (c : Call) → IsCall r c → ConversionLaw r c }
    ensures negation { (r : Fixed) (c : Call) → IsCall r c → NotLaw r c }
{}

/// Operations whose only effect is which operation is next: behind one that is an instruction at the least nothing is owed.
pub fn moves()
    ensures label { (r : Fixed) (c : Call) → IsCall r c → (x : Point) (s : State) (m : Counted) (hand : ℕ) → LabelLaw r c x s m hand }
    ensures jump { (r : Fixed) (c : Call) → IsCall r c → (x : Point) (s : State) (m : Counted) (hand : ℕ) → JumpLaw r c x s m hand }
    ensures branch { (r : Fixed) (c : Call) → IsCall r c → (x : Point) (s : State) (m : Counted) (hand : ℕ) → BranchLaw r c x s m hand }
{}
