//! A line, field by field.

ghost use Rattle.std.specs.Prelude.{◌≡◌, ◌≤◌, drop, IfSome, slice_get};
ghost use Rattle.textline.specs.Lines.{fields_of};
ghost use Rattle.certtext.specs.Fields.{field, number_in, alone, ordered, bounds_in, core_in, cert_in, label_in};
ghost use Rattle.certtext.specs.Fields.{cause_in, unbalanced_in, behind_word, refused_in, word_in, said_in};

use crate::cert::{Cause, Label, Refusal};
use crate::edition::Edition;
use crate::saying::Saying;
use textline::Fields;

/// The most cycles that are certified.
const LONGEST: u32 = 2_000_000;

const LAST_REGION: u32 = 63;

#[tactic(auto, unfolding(crate::specs::Fields::said_in))]
pub fn said_in_fields(edition: Edition, line: &[u8]) -> Option<Saying>
    ensures { result ≡ said_in edition (fields_of line.now) }
{
    let mut fields = Fields::of(line);
    let word = fields.word()?;
    behind(edition, word, &mut fields)
}

/// What stands behind the first word.
#[tactic(auto, unfolding(crate::specs::Fields::word_in))]
fn behind(edition: Edition, word: &[u8], fields: &mut Fields<'_>) -> Option<Saying>
    ensures { result ≡ word_in edition word.now fields.old }
{
    if word == b"at".as_slice() {
        label(edition, fields)
    } else if word == b"cert".as_slice() {
        certified(edition, fields)
    } else if word == b"none".as_slice() {
        refused(edition, fields)
    } else if word == b"core".as_slice() {
        core_line(fields)
    } else {
        None
    }
}

fn number(fields: &mut Fields<'_>, most: u32) -> Option<u32>
    ensures value { result ≡ field (number_in most) fields.old }
    ensures taken { fields.new ≡ drop 1 fields.old }
    ensures bound { IfSome result (λ n. n ≤ most) }
{
    fields.decimal()?.at_most(most)
}

/// A number of a word or of an entry.
fn place(fields: &mut Fields<'_>) -> Option<u16>
    ensures value { result ≡ field (number_in 65535) fields.old }
    ensures taken { fields.new ≡ drop 1 fields.old }
{
    Some(number(fields, 65_535)? as u16)
}

fn region(fields: &mut Fields<'_>) -> Option<u16>
    ensures value { result ≡ field (number_in 63) fields.old }
    ensures taken { fields.new ≡ drop 1 fields.old }
{
    Some(number(fields, LAST_REGION)? as u16)
}

/// A number with nothing behind it.
#[tactic(auto, unfolding(crate::specs::Fields::alone))]
fn number_alone(fields: &mut Fields<'_>, most: u32) -> Option<u32>
    ensures value { result ≡ alone most fields.old }
    ensures bound { IfSome result (λ n. n ≤ most) }
{
    let number = number(fields, most)?;
    if fields.is_end() { Some(number) } else { None }
}

fn core_line(fields: &mut Fields<'_>) -> Option<Saying>
    ensures { result ≡ core_in fields.old }
{
    Some(Saying::Core(number_alone(fields, 1)? as u8))
}

/// The least and the greatest, with nothing behind them.
#[tactic(auto, unfolding(crate::specs::Fields::bounds_in))]
fn bounds(edition: Edition, fields: &mut Fields<'_>) -> Option<(u32, u32)>
    ensures { result ≡ bounds_in edition fields.old }
{
    match edition {
        Edition::First => {
            let both = number_alone(fields, LONGEST)?;
            Some((both, both))
        }
        Edition::Second(_) => {
            let least = number(fields, LONGEST)?;
            let most = number_alone(fields, LONGEST)?;
            if least <= most {
                Some((least, most))
            } else {
                None
            }
        }
    }
}

fn certified(edition: Edition, fields: &mut Fields<'_>) -> Option<Saying>
    ensures { result ≡ cert_in edition fields.old }
{
    let region = region(fields)?;
    let (least, most) = bounds(edition, fields)?;
    Some(Saying::Certified {
        region,
        least,
        most,
    })
}

fn label(edition: Edition, fields: &mut Fields<'_>) -> Option<Saying>
    ensures { result ≡ label_in edition fields.old }
{
    let entry = place(fields)?;
    let pc = place(fields)?;
    let (least, most) = bounds(edition, fields)?;
    Some(Saying::Labelled(Label {
        entry,
        pc,
        least,
        most,
    }))
}

fn refused(edition: Edition, fields: &mut Fields<'_>) -> Option<Saying>
    ensures { result ≡ refused_in edition fields.old }
{
    let region = region(fields)?;
    let word = fields.word()?;
    why(edition, region, word, fields)
}

#[tactic(auto, unfolding(crate::specs::Fields::behind_word))]
fn why(edition: Edition, region: u16, word: &[u8], fields: &mut Fields<'_>) -> Option<Saying>
    ensures { result ≡ behind_word edition region word.now fields.old }
{
    if word == b"unbalanced".as_slice() {
        return unbalanced(edition, region, fields);
    }
    let cause = cause_of(word)?;
    let pc = number_alone(fields, 65_535)? as u16;
    let refusal = Refusal { cause, pc };
    Some(Saying::Refused { region, refusal })
}

#[tactic(auto, unfolding(crate::specs::Fields::cause_in))]
fn cause_of(word: &[u8]) -> Option<Cause>
    ensures { result ≡ cause_in word.now }
{
    if word == b"touches".as_slice() {
        Some(Cause::Touches)
    } else if word == b"unbounded".as_slice() {
        Some(Cause::Unbounded)
    } else if word == b"crossed".as_slice() {
        Some(Cause::Crossed)
    } else if word == b"long".as_slice() {
        Some(Cause::Long)
    } else {
        None
    }
}

#[tactic(auto, unfolding(crate::specs::Fields::unbalanced_in))]
fn unbalanced(edition: Edition, region: u16, fields: &mut Fields<'_>) -> Option<Saying>
    ensures { result ≡ unbalanced_in edition region fields.old }
{
    match edition {
        Edition::First => {
            let pc = place(fields)?;
            let first = number(fields, LONGEST)?;
            let second = number_alone(fields, LONGEST)?;
            Some(Saying::Unbalanced {
                region,
                pc,
                first,
                second,
            })
        }
        Edition::Second(_) => None,
    }
}
