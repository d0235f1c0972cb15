//! What one line says.

ghost use Rattle.std.specs.Prelude.{◌≡◌, ◌∷◌, [], true, false, IfOk, IfErr, option_map};
ghost use Rattle.std.specs.List.{list_all};
ghost use Rattle.textline.specs.Numbers.{is_decimal};
ghost use Rattle.hostscript.specs.Forms.{is_skipped};
ghost use Rattle.hostscript.specs.Reading.{small_numbers, arb_in, said_in, Reads, IsFormFault};
ghost use Rattle.hostscript.specs.Lines.{Says, Misfits, NamesCore};

use crate::act::read_act;
use crate::action::Act;
use crate::cause::ScriptCause;
use crate::fault::LineFault;
use crate::script::Numbers;
use std::alloc::Global;
use textline::Fields;

/// What a line says.
#[derive(Drop)]
pub enum Saying {
    /// It is empty or a comment.
    Nothing,
    Does(Act),
    /// More arbitration numbers of a core.
    Waits { core: u8, numbers: Numbers },
}

/// Reads a line without its end.
pub fn read_line(alloc: Global, line: &[u8]) -> Result<Saying, LineFault>
    ensures ok { IfOk result (Says line.now) }
    ensures core { IfOk result NamesCore }
    ensures fault { IfErr result (Misfits line.now) }
{
    read_said(alloc, line)
}

#[tactic(auto, unfolding(crate::specs::Reading::said_in, crate::specs::Reading::fields_said))]
fn read_said(alloc: Global, line: &[u8]) -> Result<Saying, LineFault>
    ensures { Reads (λ said. said) result (said_in line.now) }
{
    if is_comment(line) {
        return Ok(Saying::Nothing);
    }
    let mut fields = Fields::of(line);
    let word = fields.word().ok_or(ScriptCause::Form)?;
    if word == b"arb".as_slice() {
        let (core, numbers) = read_arb(alloc, &mut fields)?;
        let numbers = Numbers::from_vec(numbers);
        return Ok(Saying::Waits { core, numbers });
    }
    let act = read_act(&mut Fields::of(line))?;
    Ok(Saying::Does(act))
}

fn is_comment(line: &[u8]) -> bool
    ensures { result ≡ is_skipped line.now }
{
    match line {
        [] => true,
        [first, ..] => *first == b'#',
    }
}

#[tactic(auto, unfolding(crate::specs::Reading::arb_in))]
fn read_arb(alloc: Global, fields: &mut Fields<'_>) -> Result<(u8, Vec<u8>), LineFault>
    ensures { Reads (λ x. (x.0, x.1.items)) result (arb_in fields.old) }
{
    let core = fields.decimal().ok_or(ScriptCause::Form)?;
    if fields.is_end() {
        return Err(LineFault::Cause(ScriptCause::Form));
    }
    let numbers = read_numbers(alloc, fields)?.ok_or(ScriptCause::Range)?;
    let core = core.at_most(1).ok_or(ScriptCause::Range)?;
    Ok((core as u8, numbers))
}

/// The numbers, where each is at most 255.
#[tactic(auto, unfolding(crate::specs::Reading::small_numbers), using(crate::proofs::NumberLaws::joined_end))]
fn read_numbers(alloc: Global, fields: &mut Fields<'_>) -> Result<Option<Vec<u8>>, LineFault>
    ensures ok { IfOk result (λ numbers. (list_all is_decimal fields.old ≡ true)
        × (option_map (λ v. v.items) numbers ≡ small_numbers fields.old)) }
    ensures fault { IfErr result (IsFormFault (list_all is_decimal fields.old)) }
{
    let mut numbers = Vec::new(alloc);
    let mut are_small = true;
    'words: while !fields.is_end() {
        let number = fields.decimal().ok_or(ScriptCause::Form)?;
        match number.at_most(255) {
            Some(number) => numbers.push(number as u8)?,
            None => are_small = false,
        }
    }
    if are_small {
        Ok(Some(numbers))
    } else {
        Ok(None)
    }
}
