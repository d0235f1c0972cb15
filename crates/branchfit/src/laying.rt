//! The words, notes, places of symbols and lines of the items, one after another.

ghost use Rattle.std.specs.Prelude.{◌≡◌, ◌≤◌, ◌<◌, ◌+◌, ◌∷◌, ◌++◌, ◌==◌, ℕ, List, [], OnOk, IfOk, false, if◌then◌else◌, option_to_list};
ghost use Rattle.std.specs.Prelude.{map, filter};
ghost use Rattle.isa.specs.Row.{word_of};
ghost use Rattle.isa.specs.Note.{kind_number};
ghost use Rattle.branchfit.specs.Far.{width};
ghost use Rattle.branchfit.specs.Aims.{reach_of};
ghost use Rattle.branchfit.specs.Laid.{opposite, offset_to, body_to, fitted, aimed, word_noted, with_number, of_kind, noted_to, noted};
ghost use Rattle.branchfit.specs.Laid.{number_at, refs_aimed};
ghost use Rattle.branchfit.specs.Laid as laid;
ghost use Rattle.isa.specs.declared.program.Item.{Item};
ghost use Rattle.branchfit.specs.Laying.{IsSmall, Lays, laid_behind};

use crate::far::width;
use crate::layout::Layout;
use crate::spot::reach_of;
use isa::{
    BranchOffset, Condition, Inst, Item, Jump, Line, LoopBody, Note, NoteKind, Ref, Target, Words,
    encode,
};
use prunum::Memory;
use std::alloc::Global;

fn opposite(condition: Condition) -> Condition
    ensures { result ≡ opposite condition }
{
    match condition {
        Condition::Lt => Condition::Ge,
        Condition::Ge => Condition::Lt,
        Condition::Le => Condition::Gt,
        Condition::Gt => Condition::Le,
        Condition::Eq => Condition::Ne,
        Condition::Ne => Condition::Eq,
        Condition::BitClear => Condition::BitSet,
        Condition::BitSet => Condition::BitClear,
    }
}

/// The offset from one word to another, which is -512 to 511.
fn offset_to(here: u16, there: u16) -> BranchOffset
    requires here { here ≤ 2048 }
    requires there { there ≤ 2048 }
    ensures { result ≡ offset_to here there }
{
    let bits = (there + 1024).saturating_sub(here) % 1024;
    let words = if bits < 512 {
        bits as i16
    } else {
        bits as i16 - 1024
    };
    BranchOffset { words }
}

/// The body from behind a LOOP to another word, of 1 to 255 words.
fn body_to(body: LoopBody, here: u16, there: u16) -> LoopBody
    ensures { result ≡ body_to body here there }
{
    let words = there.saturating_sub(here).saturating_sub(1);
    LoopBody {
        count: body.count,
        length: words.min(255).max(1) as u8,
    }
}

/// An instruction that isn't far, with what it goes to.
fn near(here: u16, there: u16, i: &Inst) -> Inst
    requires here { here ≤ 2048 }
    requires there { there ≤ 2048 }
    ensures { fitted false here there i.now ≡ result ∷ [] }
{
    match *i {
        Inst::Branch {
            condition,
            a,
            b,
            ..
        } => Inst::Branch {
            condition,
            offset: offset_to(here, there),
            a,
            b,
        },
        Inst::Qba { .. } => Inst::Qba {
            offset: offset_to(here, there),
        },
        Inst::Jmp { to: Jump::Word(_) } => Inst::Jmp {
            to: Jump::Word(there),
        },
        Inst::Jal {
            d,
            to: Jump::Word(_),
        } => Inst::Jal {
            d,
            to: Jump::Word(there),
        },
        Inst::Loop { body } => Inst::Loop {
            body: body_to(body, here, there),
        },
        other => other,
    }
}

/// The words of an instruction whose first is the word `here`, and that goes to the word `there`.
fn fitted(far: bool, here: u16, there: u16, i: &Inst) -> (Inst, Option<Inst>)
    requires here { here ≤ 2048 }
    requires there { there ≤ 2048 }
    ensures { fitted far here there i.now ≡ result.0 ∷ option_to_list result.1 }
{
    let jump = Inst::Jmp {
        to: Jump::Word(there),
    };
    match *i {
        Inst::Branch {
            condition,
            a,
            b,
            ..
        } if far => {
            let over = Inst::Branch {
                condition: opposite(condition),
                offset: offset_to(0, 2),
                a,
                b,
            };
            (over, Some(jump))
        }
        Inst::Qba { .. } if far => (jump, None),
        _ => (near(here, there, i), None),
    }
}

/// The words of an instruction at a place, with its target.
fn aimed(layout: &Layout, place: usize, i: &Inst, target: &Target) -> (Inst, Option<Inst>)
    requires { IsSmall layout.now }
    ensures { aimed layout.now place i.now target.now ≡ result.0 ∷ option_to_list result.1 }
{
    match *target {
        Target::Label(_) => fitted(
            layout.is_far_at(place),
            layout.word_at(place),
            layout.word_aimed_at(place),
            i,
        ),
        Target::Symbol { .. } => (*i, None),
    }
}

/// What is laid so far, the notes whose word is still to come, and the place of the next instruction.
#[derive(Drop)]
pub struct Laying {
    words: Vec<u32>,
    notes: Vec<Note>,
    refs: Vec<Ref>,
    lines: Vec<Line>,
    pending: Vec<Note>,
    place: usize,
}

fn push_words(words: &mut Vec<u32>, made: &(Inst, Option<Inst>)) -> Result<(), Memory>
    ensures { OnOk result (words.new.items ≡ words.old.items ++ map word_of (made.now.0 ∷ option_to_list made.now.1)) }
{
    words.push(encode(&made.0))?;
    if let Some(second) = &made.1 {
        words.push(encode(second))?;
    }
    Ok(())
}

/// The word on which a note of this kind stands, where its instruction has `wide` words.
fn word_noted(here: u16, wide: u16, kind: NoteKind) -> u16
    requires here { here ≤ 2048 }
    requires wide { wide ≤ 2 }
    ensures { result ≡ word_noted here wide kind }
{
    match kind {
        NoteKind::Turns => (here + wide).saturating_sub(1),
        NoteKind::Enter
        | NoteKind::DelayIn
        | NoteKind::DelayOut
        | NoteKind::Leave
        | NoteKind::Own
        | NoteKind::Return => here,
    }
}

/// Puts a note on its word, where it has this kind.
fn push_one(
    notes: &mut Vec<Note>,
    number: u8,
    here: u16,
    wide: u16,
    note: &Note,
) -> Result<(), Memory>
    requires here { here ≤ 2048 }
    requires wide { wide ≤ 2 }
    ensures { OnOk result (notes.new.items ≡ (if kind_number note.now.kind ==
        number then notes.old.items ++ with_number here wide note.now ∷ [] else notes.old.items)) }
{
    if note.kind.number() != number {
        return Ok(());
    }
    notes.push(Note {
        word: word_noted(here, wide, note.kind),
        kind: note.kind,
        value: note.value,
    })?;
    Ok(())
}

#[tactic(auto, using(crate::proofs::StepLemmas::kind_on))]
fn push_kind(
    notes: &mut Vec<Note>,
    number: u8,
    here: u16,
    wide: u16,
    pending: &[Note],
) -> Result<(), Memory>
    requires here { here ≤ 2048 }
    requires wide { wide ≤ 2 }
    ensures { OnOk result (notes.new.items ≡ notes.old.items ++ map (with_number here wide) (of_kind number pending.now)) }
{
    let mut rest = pending;
    while let Some((note, behind)) = rest.split_first() {
        push_one(notes, number, here, wide, note)?;
        rest = behind;
    }
    Ok(())
}

#[tactic(auto, using(crate::proofs::StepLemmas::noted_on, crate::proofs::StepLemmas::noted_begin))]
/// Puts the notes on an instruction, by kind.
fn push_notes(notes: &mut Vec<Note>, here: u16, wide: u16, pending: &[Note]) -> Result<(), Memory>
    requires here { here ≤ 2048 }
    requires wide { wide ≤ 2 }
    ensures { OnOk result (notes.new.items ≡ notes.old.items ++ noted here wide pending.now) }
{
    for before in 0..7u8 {
        push_kind(notes, before + 1, here, wide, pending)?;
    }
    Ok(())
}

impl Laying {
    fn new(alloc: Global) -> Laying
        ensures whole { (layout : laid.Layout) (items : List Item) → laid_behind layout result items ≡ laid.laid layout items }
        ensures place { result.place ≡ 0 }
    {
        Laying {
            words: Vec::new(alloc),
            notes: Vec::new(alloc),
            refs: Vec::new(alloc),
            lines: Vec::new(alloc),
            pending: Vec::new(alloc),
            place: 0,
        }
    }

    /// Takes an instruction with its words.
    fn put(&mut self, layout: &Layout, made: &(Inst, Option<Inst>), wide: u16) -> Result<(), Memory>
        requires small { IsSmall layout.now }
        requires room { self.old.place < usize.MAX }
        requires wide { wide ≤ 2 }
        ensures words { OnOk result (self.new.words.items ≡ self.old.words.items ++ map word_of (made.now.0 ∷ option_to_list made.now.1)) }
        ensures notes { OnOk result (self.new.notes.items ≡ self.old.notes.items ++ noted (number_at layout.now self.old.place) wide
            self.old.pending.items) }
        ensures kept { OnOk result ((self.new.refs.items ≡ self.old.refs.items) × (self.new.lines.items ≡ self.old.lines.items)) }
        ensures pending { OnOk result (self.new.pending.items ≡ []) }
        ensures place { OnOk result (self.new.place ≡ self.old.place + 1) }
    {
        push_words(&mut self.words, made)?;
        push_notes(
            &mut self.notes,
            layout.word_at(self.place),
            wide,
            &self.pending,
        )?;
        self.pending.clear();
        self.place += 1;
        Ok(())
    }

    fn into_words(self) -> Words
        ensures { result ≡ record { words = self.words.items; notes = self.notes.items; refs = self.refs.items; lines = self.lines.items } }
    {
        Words::new(self.words, self.notes, self.refs, self.lines)
    }
}

/// Puts the place of the symbol that the target at a word is.
fn push_ref(refs: &mut Vec<Ref>, word: u16, target: &Target) -> Result<(), Memory>
    ensures { OnOk result (refs.new.items ≡ refs.old.items ++ refs_aimed word target.now) }
{
    if let Target::Symbol { symbol, kind } = *target {
        refs.push(Ref {
            word: u32::from(word),
            symbol,
            kind,
        })?;
    }
    Ok(())
}

/// Takes a line of the source.
#[tactic(auto, using(crate::proofs::LayLemmas::lays_source))]
fn lay_source(laying: &mut Laying, layout: &Layout, line: u32) -> Result<(), Memory>
    requires { IsSmall layout.now }
    ensures { OnOk result (Lays layout.now (Item.Source line) laying.old laying.new) }
{
    let word = layout.word_at(laying.place);
    laying.lines.push(Line { word, line })?;
    Ok(())
}

/// Takes a note, whose word is still to come.
#[tactic(auto, using(crate::proofs::LayLemmas::lays_note))]
fn lay_note(laying: &mut Laying, layout: &Layout, kind: NoteKind, value: u32) -> Result<(), Memory>
    ensures { OnOk result (Lays layout.now (Item.Note kind value) laying.old laying.new) }
{
    laying.pending.push(Note {
        word: 0,
        kind,
        value,
    })?;
    Ok(())
}

/// Takes an instruction without a target.
#[tactic(auto, using(crate::proofs::LayLemmas::lays_whole))]
fn lay_whole(laying: &mut Laying, layout: &Layout, i: &Inst) -> Result<(), Memory>
    requires small { IsSmall layout.now }
    requires room { laying.old.place < usize.MAX }
    ensures { OnOk result (Lays layout.now (Item.Whole i.now) laying.old laying.new) }
{
    laying.put(layout, &(*i, None), 1)?;
    Ok(())
}

/// Takes an instruction with a target.
#[tactic(auto, using(crate::proofs::LayLemmas::lays_aimed))]
fn lay_aimed(laying: &mut Laying, layout: &Layout, i: &Inst, target: &Target) -> Result<(), Memory>
    requires small { IsSmall layout.now }
    requires room { laying.old.place < usize.MAX }
    ensures { OnOk result (Lays layout.now (Item.Aimed i.now target.now) laying.old laying.new) }
{
    let made = aimed(layout, laying.place, i, target);
    let wide = width(reach_of(i), layout.is_far_at(laying.place)) as u16;
    let word = layout.word_at(laying.place);
    push_ref(&mut laying.refs, word, target)?;
    laying.put(layout, &made, wide)?;
    Ok(())
}

/// Takes one item more.
#[tactic(auto, using(crate::proofs::LayLemmas::lays_label))]
fn lay_item(laying: &mut Laying, layout: &Layout, item: &Item) -> Result<(), Memory>
    requires small { IsSmall layout.now }
    requires room { laying.old.place < usize.MAX }
    ensures { OnOk result (Lays layout.now item.now laying.old laying.new) }
{
    match item {
        Item::Label(_) => Ok(()),
        Item::Source(line) => lay_source(laying, layout, *line),
        Item::Note { kind, value } => lay_note(laying, layout, *kind, *value),
        Item::Whole(i) => lay_whole(laying, layout, i),
        Item::Aimed { inst, target } => lay_aimed(laying, layout, inst, target),
    }
}

/// The words of the items, which are no more than a core's code may have.
pub fn lay(alloc: Global, layout: &Layout, items: &[Item]) -> Result<Words, Memory>
    requires { IsSmall layout.now }
    ensures { IfOk result (λ made. made ≡ laid.laid layout.now items.now) }
{
    let mut laying = Laying::new(alloc);
    let mut rest = items;
    while let Some((item, behind)) = rest.split_first() {
        lay_item(&mut laying, layout, item)?;
        rest = behind;
    }
    Ok(laying.into_words())
}
