//! Why a line of a text is bad.

ghost use Rattle.std.specs.Prelude.{◌≡◌, ℕ, List, Some, None};
ghost use Rattle.asmline.specs.Said.{saying_of, said_by};
ghost use Rattle.asmtext.specs.Held.{told, all_told, held};
ghost use Rattle.asmtext.specs.Notes.{kinds_said, kinds_after, has_kind, is_access, is_jump, is_branch, may_rest, may_aim, is_back};
ghost use Rattle.asmtext.specs.Notes.{may_stand_on, may_stand_at, may_stand};
ghost use Rattle.asmtext.specs.Causes.{is_second_note, is_out_of_range, is_second_place, is_loop, misses, aims_badly};
ghost use Rattle.asmtext.specs.Causes.{has_bad_label, is_lost_note, cause_of, AreGood, IsFirstBad};
ghost use Rattle.std.specs.Prelude.{OnOk, IfOk, MatchOption, ◌+◌, ◌<◌, ◌≤◌, length, drop};
ghost use Rattle.asmword.specs.Words.{is_below};
ghost use Rattle.asmtext.specs.Labels.{first_place};

use crate::cause::AsmCause;
use crate::places::Places;
use asmline::{Line, Statement};
use asmword::Mnemonic;
use isa::NoteKind;
use prunum::Memory;
use std::alloc::Global;

// ---- Range

fn has_kind(kind: NoteKind, kinds: &[NoteKind]) -> bool
    ensures { result ≡ has_kind kind kinds.now }
{
    kinds.iter().any(|k| k.number() == kind.number())
}

fn is_second_note(kinds: &[NoteKind], statement: &Statement<'_>) -> bool
    ensures { result ≡ is_second_note kinds.now (saying_of statement.now) }
{
    match *statement {
        Statement::Note { kind, .. } => has_kind(kind, kinds),
        Statement::Nothing | Statement::Whole(_) | Statement::Aimed { .. } => false,
    }
}

fn is_out_of_range(kinds: &[NoteKind], line: &Line<'_>) -> bool
    ensures { result ≡ is_out_of_range kinds.now (said_by line.now).saying }
{
    !line.fits() || is_second_note(kinds, &line.statement)
}

// ---- Label

fn is_below(number: usize, place: Option<usize>) -> bool
    ensures { result ≡ is_below number place }
{
    match place {
        Some(place) => place < number,
        None => false,
    }
}

fn is_second_place(places: &Places<'_>, number: usize, line: &Line<'_>) -> bool
    ensures { result ≡ is_second_place (held places.now) number (said_by line.now).label }
{
    match line.label {
        Some(name) => is_below(number, places.get(name)),
        None => false,
    }
}

fn is_loop(mnemonic: Mnemonic) -> bool
    ensures { result ≡ is_loop mnemonic }
{
    matches!(mnemonic, Mnemonic::Loop)
}

fn misses(is_loop: bool, number: usize, place: Option<usize>) -> bool
    ensures { result ≡ misses is_loop number place }
{
    match place {
        Some(place) => is_loop && place <= number,
        None => true,
    }
}

fn aims_badly(places: &Places<'_>, number: usize, statement: &Statement<'_>) -> bool
    ensures { result ≡ aims_badly (held places.now) number (saying_of statement.now) }
{
    match *statement {
        Statement::Aimed { form, name } => {
            misses(is_loop(form.mnemonic), number, places.get(name))
        }
        Statement::Nothing | Statement::Note { .. } | Statement::Whole(_) => false,
    }
}

fn has_bad_label(places: &Places<'_>, number: usize, line: &Line<'_>) -> bool
    ensures { result ≡ has_bad_label (held places.now) number (said_by line.now) }
{
    is_second_place(places, number, line) || aims_badly(places, number, &line.statement)
}

// ---- Note

fn may_rest(kind: NoteKind, mnemonic: Mnemonic) -> bool
    ensures { result ≡ may_rest kind mnemonic }
{
    match kind {
        NoteKind::Own => is_access(mnemonic),
        NoteKind::Return => is_jump(mnemonic),
        NoteKind::Turns => false,
        NoteKind::Enter | NoteKind::DelayIn | NoteKind::DelayOut | NoteKind::Leave => true,
    }
}

fn is_access(mnemonic: Mnemonic) -> bool
    ensures { result ≡ is_access mnemonic }
{
    matches!(
        mnemonic,
        Mnemonic::Lbbo | Mnemonic::Lbco | Mnemonic::Sbbo | Mnemonic::Sbco
    )
}

fn is_jump(mnemonic: Mnemonic) -> bool
    ensures { result ≡ is_jump mnemonic }
{
    matches!(mnemonic, Mnemonic::Jmp)
}

fn is_branch(mnemonic: Mnemonic) -> bool
    ensures { result ≡ is_branch mnemonic }
{
    matches!(
        mnemonic,
        Mnemonic::Branch(_) | Mnemonic::Qba | Mnemonic::Jmp
    )
}

fn may_aim(kind: NoteKind, mnemonic: Mnemonic, back: bool) -> bool
    ensures { result ≡ may_aim kind mnemonic back }
{
    match kind {
        NoteKind::Own | NoteKind::Return => false,
        NoteKind::Turns => is_branch(mnemonic) && back,
        NoteKind::Enter | NoteKind::DelayIn | NoteKind::DelayOut | NoteKind::Leave => true,
    }
}

/// Whether a label at this place isn't behind the line. One that stands nowhere is its word's own fault.
fn is_back(number: usize, place: Option<usize>) -> bool
    ensures { result ≡ is_back number place }
{
    match place {
        Some(place) => place <= number,
        None => true,
    }
}

fn may_stand_on(
    places: &Places<'_>,
    kind: NoteKind,
    number: usize,
    statement: &Statement<'_>,
) -> Option<bool>
    ensures { result ≡ may_stand_on (held places.now) kind number (saying_of statement.now) }
{
    match *statement {
        Statement::Whole(form) => Some(may_rest(kind, form.mnemonic)),
        Statement::Aimed { form, name } => {
            let back = is_back(number, places.get(name));
            Some(may_aim(kind, form.mnemonic, back))
        }
        Statement::Nothing | Statement::Note { .. } => None,
    }
}

/// Whether a note may stand on the word of a line. `None` where it has none.
fn may_stand_at(
    places: &Places<'_>,
    kind: NoteKind,
    number: usize,
    line: &Option<Line<'_>>,
) -> Option<bool>
    ensures { result ≡ may_stand_at (held places.now) kind number (told line.now) }
{
    match line {
        Some(line) => may_stand_on(places, kind, number, &line.statement),
        None => None,
    }
}

/// Whether a note may stand on the next word of these lines, from the one with this number on. A word has at most seven notes
/// before its first bad line, so all of this takes time in proportion to the lines.
fn may_stand(places: &Places<'_>, kind: NoteKind, from: usize, lines: &[Option<Line<'_>>]) -> bool
    requires { from ≤ length lines.now }
    ensures { result ≡ may_stand (held places.now) kind from (drop from (all_told lines.now)) }
{
    for number in from..lines.len() {
        if let Some(stands) = may_stand_at(places, kind, number, &lines[number]) {
            return stands;
        }
    }
    false
}

fn is_lost_note(
    places: &Places<'_>,
    number: usize,
    statement: &Statement<'_>,
    lines: &[Option<Line<'_>>],
) -> bool
    requires { number < length lines.now }
    ensures { result ≡ is_lost_note (held places.now) number (saying_of statement.now) (drop (number + 1) (all_told lines.now)) }
{
    match *statement {
        Statement::Note { kind, .. } => !may_stand(places, kind, number + 1, lines),
        Statement::Nothing | Statement::Whole(_) | Statement::Aimed { .. } => false,
    }
}

// ---- lines

fn cause_said(
    places: &Places<'_>,
    kinds: &[NoteKind],
    number: usize,
    line: &Line<'_>,
    lines: &[Option<Line<'_>>],
) -> Option<AsmCause>
    requires { number < length lines.now }
    ensures { result ≡ cause_of (held places.now) kinds.now number (Some (said_by line.now)) (drop (number + 1) (all_told lines.now)) }
{
    if is_out_of_range(kinds, line) {
        Some(AsmCause::Range)
    } else if has_bad_label(places, number, line) {
        Some(AsmCause::Label)
    } else if is_lost_note(places, number, &line.statement, lines) {
        Some(AsmCause::Note)
    } else {
        None
    }
}

/// Why a line with this number, from 0, is bad among the lines, where the notes of these kinds wait for their word.
fn cause_of(
    places: &Places<'_>,
    kinds: &[NoteKind],
    number: usize,
    line: &Option<Line<'_>>,
    lines: &[Option<Line<'_>>],
) -> Option<AsmCause>
    requires { number < length lines.now }
    ensures { result ≡ cause_of (held places.now) kinds.now number (told line.now) (drop (number + 1) (all_told lines.now)) }
{
    match line {
        Some(line) => cause_said(places, kinds, number, line, lines),
        None => Some(AsmCause::Form),
    }
}

fn pass_statement(kinds: &mut Vec<NoteKind>, statement: &Statement<'_>) -> Result<(), Memory>
    ensures { OnOk result (kinds.new.items ≡ kinds_said kinds.old.items (saying_of statement.now)) }
{
    match *statement {
        Statement::Note { kind, .. } => kinds.push(kind)?,
        Statement::Whole(_) | Statement::Aimed { .. } => kinds.clear(),
        Statement::Nothing => {}
    }
    Ok(())
}

/// Goes behind the line, with the kinds of the notes whose word is still to come.
fn pass(kinds: &mut Vec<NoteKind>, line: &Option<Line<'_>>) -> Result<(), Memory>
    ensures { OnOk result (kinds.new.items ≡ kinds_after kinds.old.items (told line.now)) }
{
    match line {
        Some(line) => pass_statement(kinds, &line.statement),
        None => Ok(()),
    }
}

/// The first bad line, from 0, with its cause, where the labels stand at these places.
pub fn first_bad(
    alloc: Global,
    places: &Places<'_>,
    lines: &[Option<Line<'_>>],
) -> Result<Option<(usize, AsmCause)>, Memory>
    requires { (name : List ℕ) → held places.now name ≡ first_place (all_told lines.now) name }
    ensures { IfOk result (λ bad. MatchOption bad (AreGood (length lines.now) (all_told lines.now))
        (λ b. (b.0 < length lines.now) × IsFirstBad (all_told lines.now) b.0 b.1)) }
{
    let mut kinds = Vec::new(alloc);
    for number in 0..lines.len() {
        let line = &lines[number];
        if let Some(cause) = cause_of(places, &kinds, number, line, lines) {
            return Ok(Some((number, cause)));
        }
        pass(&mut kinds, line)?;
    }
    Ok(None)
}
