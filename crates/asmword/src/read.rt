//! Texts of instructions.

ghost use Rattle.std.specs.Prelude.{◌≡◌, drop};
ghost use Rattle.asmword.specs.Reading.{is_named, named_among, mnemonic_in, next, at_end, operands_in, form_in};

use crate::blank::{behind_blanks, split_word, trimmed};
use crate::form::{Form, Operands, Word};
use crate::kinds::{Kind, Shape};
use crate::mnemonic::{MNEMONICS, Mnemonic};
use crate::parts::Parts;
use crate::word::read_word;

#[tactic(auto, unfolding(crate::specs::Reading::is_named))]
fn is_named(word: &[u8], mnemonic: Mnemonic) -> bool
    ensures { result ≡ is_named word.now mnemonic }
{
    word.eq_ignore_ascii_case(mnemonic.name().as_bytes())
}

#[tactic(auto, using(crate::proofs::NameLaws::name_step, crate::proofs::NameLaws::name_stop, crate::proofs::NameLaws::name_none))]
fn find_named(table: &[Mnemonic], word: &[u8]) -> Option<Mnemonic>
    ensures { result ≡ named_among table.now word.now }
{
    let mut rest = table;
    'names: while let Some((mnemonic, others)) = rest.split_first() {
        if is_named(word, *mnemonic) {
            return Some(*mnemonic);
        }
        rest = others;
    }
    None
}

#[tactic(auto, unfolding(crate::specs::Reading::mnemonic_in))]
fn read_mnemonic(word: &[u8]) -> Option<Mnemonic>
    ensures { result ≡ mnemonic_in word.now }
{
    find_named(&MNEMONICS, word)
}

fn next(parts: &mut Parts<'_>, kind: Kind) -> Option<Word>
    ensures word { result ≡ next kind parts.old }
    ensures taken { parts.new ≡ drop 1 parts.old }
{
    read_word(kind, trimmed(parts.part()?))
}

fn at_end(parts: &Parts<'_>, read: Operands) -> Option<Operands>
    ensures { result ≡ at_end parts.now read }
{
    if parts.is_end() { Some(read) } else { None }
}

#[tactic(auto, unfolding(crate::specs::Reading::operands_in))]
fn read_operands(shape: Shape, parts: &mut Parts<'_>) -> Option<Operands>
    ensures { result ≡ operands_in shape parts.old }
{
    match shape {
        Shape::Nothing => at_end(parts, Operands::Nothing),
        Shape::One(a) => {
            let a = next(parts, a)?;
            at_end(parts, Operands::One(a))
        }
        Shape::Two(a, b) => {
            let a = next(parts, a)?;
            let b = next(parts, b)?;
            at_end(parts, Operands::Two(a, b))
        }
        Shape::Three(a, b, c) => {
            let a = next(parts, a)?;
            let b = next(parts, b)?;
            let c = next(parts, c)?;
            at_end(parts, Operands::Three(a, b, c))
        }
        Shape::Four(a, b, c, d) => {
            let a = next(parts, a)?;
            let b = next(parts, b)?;
            let c = next(parts, c)?;
            let d = next(parts, d)?;
            at_end(parts, Operands::Four(a, b, c, d))
        }
    }
}

/// The mnemonic and the operands that a text has. `None` where it has not the form of an instruction. Of numbers above 32 bits
/// 2^32 stands for each.
#[tactic(auto, unfolding(crate::specs::Reading::form_in))]
pub fn read_form(text: &[u8]) -> Option<Form>
    ensures { result ≡ form_in text.now }
{
    let (word, behind) = split_word(behind_blanks(text));
    let mnemonic = read_mnemonic(word)?;
    let operands = read_operands(mnemonic.shape(), &mut Parts::of_operands(behind))?;
    Some(Form { mnemonic, operands })
}
