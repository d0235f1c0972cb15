ghost use Rattle.std.specs.Prelude.{IsTrue};
ghost use Rattle.std.specs.List.{list_all};
ghost use Rattle.midcode.specs.declared.op.UnaryOp.{UnaryOp};
ghost use Rattle.midcode.specs.Value.{unary_value};
ghost use Rattle.fieldcode.specs.Laws.{OneLaw, WidenLaw, ConstantLaw, TwoLaw, HomesLaw};
ghost use Rattle.fieldcode.specs.Laws.{with_slot, with_number, each_direct, other_samples, is_small};
ghost use Rattle.fieldcode.specs.Works.{unary_work, copy_work};

/// Constants, copies, sign extension, and each operator that needs no helper become instructions that do them, whatever the homes of their
/// operands and of their result are, and wherever the instructions stand under any numbering. Each instruction is done once, in order.
/// What a core holds for a function's live registers, in their fields and slots, it holds behind such an operation too, with the number in
/// the result's register; registers that are no longer live may share its home (`homes`).
pub fn value_laws()
    ensures constant { ConstantLaw }
    ensures copy { OneLaw copy_work (λ x. x) }
    ensures widen { WidenLaw }
    ensures unary { (o : UnaryOp) → OneLaw (unary_work o) (unary_value o) }
    ensures binary { TwoLaw }
    ensures homes { HomesLaw }
{}

/// With every register in a slot they are at most the words that operations are counted with: samples of each operator with a register, a
/// small and a great number on its right, and of the others.
#[tactic(auto, using(crate::proofs::Public::word_rules))]
pub fn word_laws()
    ensures slots { IsTrue (list_all is_small (each_direct with_slot)) }
    ensures numbers { IsTrue (list_all is_small (each_direct (λ o. with_number o 200))) }
    ensures large { IsTrue (list_all is_small (each_direct (λ o. with_number o 70000))) }
    ensures others { IsTrue (list_all is_small other_samples) }
{}
