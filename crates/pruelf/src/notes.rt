ghost use Rattle.std.specs.Prelude.{◌≡◌, ◌<◌, ◌^◌, None};
ghost use Rattle.std.specs.List.{list_any};
ghost use Rattle.isa.specs.Note.{value_fits};
ghost use Rattle.pruelf.specs.Fields.{Gives, judged_in, many_in};
ghost use Rattle.pruelf.specs.Parts.{kind_before, kind_in, kinds, may_be_word, may_follow, note_in, word_before};
ghost use Rattle.std.specs.Int.{w16, w32};
ghost use Rattle.pruelf.specs.declared.fault.LoadCause.TheVariants as causes;

use crate::fault::{LoadCause, LoadFault};
use crate::fields::{byte, fixed, half, word, wrong};
use crate::words::instruction;
use isa::{Note, NoteKind};
use prunum::Width;
use std::alloc::Global;

const KINDS: [NoteKind; 7] = [
    NoteKind::Enter,
    NoteKind::DelayIn,
    NoteKind::DelayOut,
    NoteKind::Leave,
    NoteKind::Own,
    NoteKind::Return,
    NoteKind::Turns,
];

/// The number of the kind of the note before, where that stands on this word too.
fn kind_before(before: Option<Note>, word: u16) -> u8
    ensures { result ≡ kind_before before word }
{
    match before {
        Some(note) if note.word == word => note.kind.number(),
        _ => 0,
    }
}

fn word_before(before: Option<Note>) -> u16
    ensures { result ≡ word_before before }
{
    match before {
        Some(note) => note.word,
        None => 0,
    }
}

/// Whether a note of this kind may stand on this word behind the note before.
fn may_follow(words: &[u32], before: Option<Note>, word: u16, kind: NoteKind) -> bool
    ensures { result ≡ may_follow words.now before word kind }
{
    if kind.number() <= kind_before(before, word) {
        return false;
    }
    match instruction(words, word) {
        Some(i) => kind.may_stand(word, &i),
        None => false,
    }
}

fn some_may_follow(words: &[u32], before: Option<Note>, word: u16) -> bool
    ensures { result ≡ list_any (may_follow words.now before word) kinds }
{
    KINDS
        .iter()
        .any(|kind| may_follow(words, before, word, *kind))
}

/// Whether some note may stand on this word behind the note before.
fn may_be_word(words: &[u32], before: Option<Note>, word: u16) -> bool
    ensures { result ≡ may_be_word words.now before word }
{
    word_before(before) <= word && some_may_follow(words, before, word)
}

#[tactic(auto, unfolding(crate::specs::Fields::judged_in))]
fn note_word<'a>(
    words: &[u32],
    before: Option<Note>,
    end: usize,
    bytes: &'a [u8],
) -> Result<(u16, &'a [u8]), LoadFault>
    requires { end < 2 ^ 31 }
    ensures { Gives (λ x. (x.0, x.1.now)) result (judged_in causes.Note w16 (may_be_word words.now before) end bytes.now) }
{
    let (word, rest) = half(end, bytes)?;
    if !may_be_word(words, before, word) {
        return Err(wrong(LoadCause::Note, end, bytes));
    }
    Ok((word, rest))
}

#[tactic(auto, unfolding(crate::specs::Parts::kind_in))]
fn note_kind<'a>(
    words: &[u32],
    before: Option<Note>,
    word: u16,
    end: usize,
    bytes: &'a [u8],
) -> Result<(NoteKind, &'a [u8]), LoadFault>
    requires { end < 2 ^ 31 }
    ensures { Gives (λ x. (x.0, x.1.now)) result (kind_in words.now before word end bytes.now) }
{
    let (number, rest) = byte(end, bytes)?;
    match NoteKind::from_number(number) {
        Some(kind) if may_follow(words, before, word, kind) => Ok((kind, rest)),
        _ => Err(wrong(LoadCause::Note, end, bytes)),
    }
}

#[tactic(auto, unfolding(crate::specs::Fields::judged_in))]
fn note_value(kind: NoteKind, end: usize, bytes: &[u8]) -> Result<(u32, &[u8]), LoadFault>
    requires { end < 2 ^ 31 }
    ensures { Gives (λ x. (x.0, x.1.now)) result (judged_in causes.Note w32 (value_fits kind) end bytes.now) }
{
    let (value, rest) = word(end, bytes)?;
    if !kind.allows(value) {
        return Err(wrong(LoadCause::Note, end, bytes));
    }
    Ok((value, rest))
}

/// The note behind the one before, on one of the words.
#[tactic(auto, unfolding(crate::specs::Parts::note_in))]
fn note<'a>(
    words: &[u32],
    before: Option<Note>,
    end: usize,
    bytes: &'a [u8],
) -> Result<(Note, &'a [u8]), LoadFault>
    requires { end < 2 ^ 31 }
    ensures { Gives (λ x. (x.0, x.1.now)) result (note_in words.now end 0 before bytes.now) }
{
    let (word, rest) = note_word(words, before, end, bytes)?;
    let (kind, rest) = note_kind(words, before, word, end, rest)?;
    let rest = fixed(LoadCause::Note, Width::B1, &[0], end, rest)?;
    let (value, rest) = note_value(kind, end, rest)?;
    Ok((Note { word, kind, value }, rest))
}

/// So many notes on the words, in their order.
pub fn notes<'a>(
    alloc: Global,
    words: &[u32],
    count: u32,
    end: usize,
    bytes: &'a [u8],
) -> Result<(Vec<Note>, &'a [u8]), LoadFault>
    requires { end < 2 ^ 31 }
    ensures { Gives (λ x. (x.0.items, x.1.now)) result (many_in (note_in words.now end) count None bytes.now) }
{
    let mut notes = Vec::new(alloc);
    let mut before = None;
    let mut rest = bytes;
    'notes: for _ in 0..count {
        let (note, behind) = note(words, before, end, rest)?;
        notes.push(note)?;
        before = Some(note);
        rest = behind;
    }
    Ok((notes, rest))
}
