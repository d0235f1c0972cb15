//! What holds of lines and fields, whatever reads them.

ghost use Rattle.std.specs.Prelude.{◌≡◌, ◌<◌, ◌⊎◌, ℕ, List, [], ◌∷◌, ◌++◌, length};
ghost use Rattle.std.specs.List.{AllByRecursion};
ghost use Rattle.textline.specs.Lines.{Lacks, text_of, lines_of, line_of, fields_of};

/// Lines that are printed are read again, with the last line's end or without it, and nothing else is.
pub fn lines_are_read_again()
    ensures whole { (lines : List (List ℕ)) → AllByRecursion (Lacks 10) lines → lines_of (text_of lines) ≡ lines }
    ensures cut { (lines : List (List ℕ)) (last : List ℕ) → AllByRecursion (Lacks 10) lines → Lacks 10 last → 0 < length last →
        lines_of (text_of lines ++ last) ≡ lines ++ last ∷ [] }
    ensures lack { (text : List ℕ) → AllByRecursion (Lacks 10) (lines_of text) }
    ensures nothing_else { (text : List ℕ) → (text ≡ text_of (lines_of text)) ⊎ (text ++ 10 ∷ [] ≡ text_of (lines_of text)) }
{}

/// Fields that are printed are read again, and nothing else is.
pub fn fields_are_read_again()
    ensures again { (fields : List (List ℕ)) → 0 < length fields → AllByRecursion (Lacks 32) fields → fields_of (line_of fields) ≡ fields }
    ensures lack { (line : List ℕ) → AllByRecursion (Lacks 32) (fields_of line) }
    ensures nothing_else { (line : List ℕ) → line ≡ line_of (fields_of line) }
{}
