//! What holds of lines and their texts, whatever reads them.

ghost use Rattle.std.specs.Prelude.{◌≡◌, ◌<◌, ◌^◌, ℕ, IsTrue, false, Some, None};
ghost use Rattle.isa.specs.declared.inst.Inst.{Inst};
ghost use Rattle.isa.specs.declared.note.NoteKind.{NoteKind};
ghost use Rattle.isa.specs.Program.{has_target};
ghost use Rattle.isa.specs.Row.{Fits};
ghost use Rattle.asmword.specs.Forms.{written};
ghost use Rattle.asmline.specs.Lines.{said_in};
ghost use Rattle.asmline.specs.Printing.{label_name, line_text, word_text};
ghost use Rattle.asmline.specs.Said.{nothing, note, whole, aimed};
ghost use Rattle.asmline.specs.declared.print.PrintedLine.TheVariants.{Label, Note};

/// What is printed of a label, a note or an instruction is read as it.
pub fn printed_lines_are_read_again()
    ensures label { (n : ℕ) → n < 2 ^ 32
        → said_in (line_text (Label n)) ≡ Some (record { label = Some (label_name n); saying = nothing }) }
    ensures note { (kind : NoteKind) (value : ℕ) → value < 2 ^ 32
        → said_in (line_text (Note kind value)) ≡ Some (record { label = None; saying = note kind value }) }
    ensures whole { (i : Inst) (n : ℕ) → Fits i → n < 2 ^ 32 → has_target i ≡ false
        → said_in (word_text n i) ≡ Some (record { label = None; saying = whole (written i) }) }
    ensures aimed { (i : Inst) (n : ℕ) → Fits i → n < 2 ^ 32 → IsTrue (has_target i)
        → said_in (word_text n i) ≡ Some (record { label = None; saying = aimed (written i) (label_name n) }) }
{}
