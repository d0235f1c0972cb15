//! What holds of instructions and their texts, whatever reads them.

ghost use Rattle.std.specs.Prelude.{◌≡◌, ◌<◌, ◌^◌, ◌++◌, ℕ, IsTrue, Some, codes};
ghost use Rattle.std.specs.Fmt.{decimal};
ghost use Rattle.isa.specs.declared.inst.Inst.{Inst};
ghost use Rattle.isa.specs.Program.{has_target};
ghost use Rattle.isa.specs.Row.{Fits};
ghost use Rattle.asmword.specs.Forms.{written};
ghost use Rattle.asmword.specs.Instructions.{made};
ghost use Rattle.asmword.specs.Made.{stands_least};
ghost use Rattle.asmword.specs.Labels.{has_label, label_in};
ghost use Rattle.asmword.specs.Reading.{form_in};
ghost use Rattle.asmword.specs.Texts.{form_text};

/// What is printed of an instruction is read as what it is written with.
pub fn printed_is_read_again()
    ensures { (i : Inst) (label : ℕ) → Fits i → label < 2 ^ 32 → form_in (form_text label (written i)) ≡ Some (written i) }
{}

/// An instruction is written with a label exactly where it goes to a numbered word, and the label that is printed is found again.
pub fn labels_are_found()
    ensures has { (i : Inst) → has_label (written i).operands ≡ has_target i }
    ensures name { (i : Inst) (label : ℕ) → Fits i → label < 2 ^ 32 → IsTrue (has_target i)
        → label_in (written i) (form_text label (written i)) ≡ Some (codes "L" ++ decimal label) }
{}

/// An instruction with the least number in place of a label's word is made again of what it is written with.
pub fn written_is_made()
    ensures { (i : Inst) → Fits i → IsTrue (stands_least i) → made (written i).mnemonic (written i).operands ≡ Some i }
{}
