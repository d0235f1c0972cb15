ghost use Rattle.std.specs.Prelude.{List};
ghost use Rattle.cprogram.specs.Layout.{Shape};
ghost use Rattle.cmean.specs.Expression.{Calls};
ghost use Rattle.lowerstate.specs.Related.{Fixed, Call, IsCall};
ghost use Rattle.lowerflow.specs.Claims.{AreDeclared, ValueLaw, StatementLaw};
ghost use Rattle.lowerflow.specs.Laws.{TestLaw, LogicalLaw, ConditionalLaw, EitherLaw, IfLaw, LoopLaw, DoLaw, StepLaw, RegionLaw, NextLaw};
ghost use Rattle.lowerflow.specs.Typed.{Declared};

/// Tests, and what is chosen by them.
pub fn choices()
    ensures test { (r : Fixed) (c : Call) → IsCall r c → TestLaw r c }
    ensures logical { (r : Fixed) (c : Call) → IsCall r c → LogicalLaw r c }
    ensures conditional { (r : Fixed) (c : Call) → IsCall r c → ConditionalLaw r c }
    ensures either { (r : Fixed) (c : Call) → IsCall r c → EitherLaw r c }
    ensures one { (r : Fixed) (c : Call) → IsCall r c → IfLaw r c }
{}

/// Loops with their breaks and continues, regions, and statements one after another.
pub fn loops()
    ensures first { (r : Fixed) (c : Call) → IsCall r c → LoopLaw r c }
    ensures last { (r : Fixed) (c : Call) → IsCall r c → DoLaw r c }
    ensures step { (r : Fixed) (c : Call) → StepLaw r c }
    ensures region { (r : Fixed) (c : Call) → IsCall r c → RegionLaw r c }
    ensures next { (r : Fixed) (c : Call) → NextLaw r c }
{}

/// The code of each expression that has one does what the expression means, with 512 cycles a step and in time.
pub fn expressions()
    ensures value { (r : Fixed) (c : Call) → IsCall r c → (d : Declared) → AreDeclared d c.own → (calls : Calls) → ValueLaw r c d calls }
{}

/// The code of each statement that has one does what the statement means, up to an undefined step: the same events, none missing, each
/// step paid for; and it ends where the meaning ends, at its end or at the label of a break or a continue.
pub fn statements()
    ensures statement { (r : Fixed) (c : Call) → IsCall r c → (d : Declared) → AreDeclared d c.own → (calls : Calls)
        → (shapes : List Shape) → StatementLaw r c d calls shapes }
{}
