//! Lines of assembly text, read.

ghost use Rattle.std.specs.Prelude.{◌≡◌, Some, None, MatchOption};
ghost use Rattle.asmline.specs.Lines.{before_comment, note_in, word_in, word_of, saying_in, said_in, said_in_parts};
ghost use Rattle.asmline.specs.Said.{saying_of, said_by};

use crate::line::{Line, Statement};
use crate::note::read_kind;
use asmword::{
    Form, Parts, behind_blanks, is_name, label_of, read_form, read_number, split_word, trimmed,
};

#[tactic(auto, unfolding(crate::specs::Lines::before_comment))]
fn before_comment(line: &[u8]) -> &[u8]
    ensures { result.now ≡ before_comment line.now }
{
    match Parts::of(line, b';').part() {
        Some(text) => text,
        None => &[],
    }
}

#[tactic(auto, unfolding(crate::specs::Lines::note_in))]
fn read_note<'a>(text: &[u8]) -> Option<Statement<'a>>
    ensures { MatchOption result (note_in text.now ≡ None) (λ s. note_in text.now ≡ Some (saying_of s)) }
{
    let (word, behind) = split_word(behind_blanks(text));
    let kind = read_kind(word)?;
    let value = read_number(trimmed(behind))?;
    Some(Statement::Note { kind, value })
}

#[tactic(auto, unfolding(crate::specs::Lines::word_of))]
fn with_label<'a>(form: Form, text: &'a [u8]) -> Option<Statement<'a>>
    ensures { MatchOption result (word_of form text.now ≡ None) (λ s. word_of form text.now ≡ Some (saying_of s)) }
{
    if form.has_label() {
        let name = label_of(&form, text)?;
        Some(Statement::Aimed { form, name })
    } else {
        Some(Statement::Whole(form))
    }
}

#[tactic(auto, unfolding(crate::specs::Lines::word_in))]
fn read_instruction(text: &[u8]) -> Option<Statement<'_>>
    ensures { MatchOption result (word_in text.now ≡ None) (λ s. word_in text.now ≡ Some (saying_of s)) }
{
    let form = read_form(text)?;
    with_label(form, text)
}

#[tactic(auto, unfolding(crate::specs::Lines::saying_in))]
fn read_statement(text: &[u8]) -> Option<Statement<'_>>
    ensures { MatchOption result (saying_in text.now ≡ None) (λ s. saying_in text.now ≡ Some (saying_of s)) }
{
    let rest = behind_blanks(text);
    if rest.is_empty() {
        return Some(Statement::Nothing);
    }
    let (word, behind) = split_word(rest);
    if word == b".note".as_slice() {
        read_note(behind)
    } else {
        read_instruction(text)
    }
}

#[tactic(auto, unfolding(crate::specs::Lines::said_in_parts))]
fn read_parts<'a>(parts: &mut Parts<'a>) -> Option<Line<'a>>
    ensures { MatchOption result (said_in_parts parts.old ≡ None) (λ line. said_in_parts parts.old ≡ Some (said_by line)) }
{
    let first = parts.part()?;
    let Some(text) = parts.part() else {
        let statement = read_statement(first)?;
        return Some(Line {
            label: None,
            statement,
        });
    };
    if !parts.is_end() || !is_name(first) {
        return None;
    }
    let statement = read_statement(text)?;
    Some(Line {
        label: Some(first),
        statement,
    })
}

/// What a line, without its end, says. `None` where it has no form of a line. Numbers may be out of their ranges.
#[tactic(auto, unfolding(crate::specs::Lines::said_in))]
pub fn read_line(line: &[u8]) -> Option<Line<'_>>
    ensures { MatchOption result (said_in line.now ≡ None) (λ read. said_in line.now ≡ Some (said_by read)) }
{
    let text = behind_blanks(before_comment(line));
    read_parts(&mut Parts::of(text, b':'))
}
