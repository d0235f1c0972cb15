//! The labels that written instructions refer to.

ghost use Rattle.std.specs.Prelude.{◌≡◌, Some, None, MatchOption};
ghost use Rattle.asmword.specs.Labels.{has_label, label_among, label_in};

use crate::blank::{behind_blanks, split_word, trimmed};
use crate::form::{Form, Operands, Word};
use crate::parts::Parts;

impl Form {
    /// Whether it refers to a label.
    pub fn has_label(&self) -> bool
        ensures { result ≡ has_label self.now.operands }
    {
        has_label(&self.operands)
    }
}

fn has_label(operands: &Operands) -> bool
    ensures { result ≡ has_label operands.now }
{
    matches!(
        operands,
        Operands::One(Word::Label)
            | Operands::Two(Word::Label, _)
            | Operands::Two(_, Word::Label)
            | Operands::Three(Word::Label, _, _)
    )
}

fn label_among<'a>(operands: &Operands, parts: &mut Parts<'a>) -> Option<&'a [u8]>
    ensures { MatchOption result (label_among operands.now parts.old ≡ None) (λ part. label_among operands.now parts.old ≡ Some part.now) }
{
    match *operands {
        Operands::One(Word::Label) => parts.part(),
        Operands::Two(Word::Label, _) => parts.part(),
        Operands::Two(_, Word::Label) => {
            parts.part()?;
            parts.part()
        }
        Operands::Three(Word::Label, _, _) => parts.part(),
        _ => None,
    }
}

/// The name of the label that an instruction refers to, where it refers to one: the text is the one of which the form was read.
#[tactic(auto, unfolding(crate::specs::Labels::label_in))]
pub fn label_of<'a>(form: &Form, text: &'a [u8]) -> Option<&'a [u8]>
    ensures { MatchOption result (label_in form.now text.now ≡ None) (λ name. label_in form.now text.now ≡ Some name.now) }
{
    let (_, behind) = split_word(behind_blanks(text));
    let part = label_among(&form.operands, &mut Parts::of_operands(behind))?;
    Some(trimmed(part))
}
