ghost use Rattle.std.specs.Prelude.{◌≡◌, ◌≤◌, ◌+◌, ◌*◌, ◌&&◌, ℕ, Bool, false, IsTrue, List, length};
ghost use Rattle.std.specs.List.{list_all};
ghost use Rattle.prunum.specs.declared.width.Width.{Width};
ghost use Rattle.midcode.specs.declared.op.OpKind.{OpKind};
ghost use Rattle.midcode.specs.declared.signature.Signature.{Signature};
ghost use Rattle.midcode.specs.Operation.{is_delay, parameters};
ghost use Rattle.midcode.specs.Function.{fits};
ghost use Rattle.midcode.specs.Cost.{charge, entry_size, start_size};
ghost use Rattle.midcode.specs.Weight.{constructs, is_light, is_quick};

/// Every operation but a delay takes at most 512 cycles.
#[tactic(auto, using(crate::proofs::Costs::charge_few))]
pub fn charges()
    ensures { (registers : List Width) (labels : ℕ) (k : OpKind) → IsTrue (fits registers labels k) → is_delay k ≡ false → charge k ≤ 512 }
{}

/// The operations of each construct fit its weight in words, and its step in cycles; so do an entry, its parameters and the start.
#[tactic(auto, using(crate::proofs::Costs::cost_rules))]
pub fn weights()
    ensures words { IsTrue (list_all is_light constructs) }
    ensures cycles { IsTrue (list_all is_quick constructs) }
    ensures entry { (s : Signature) → entry_size s ≤ 40 + 12 * length (parameters s) }
    ensures start { start_size ≤ 72 }
{}
