//! Whether an assembly program is whole.

ghost use Rattle.std.specs.Prelude.{◌≡◌, ◌↔◌, ◌∷◌, ℕ, [], IsTrue, IfOk, OnOk};
ghost use Rattle.std.specs.List.{list_all};
ghost use Rattle.isa.specs.Judging.{has, may_precede, with_label, are_placed, is_there, has_kind, may_follow};
ghost use Rattle.isa.specs.Judging.{kinds_behind, is_empty, notes_stand, HaveSame, is_judged_whole};
ghost use Rattle.isa.specs.Program.{IsWhole, labels, is_numbered_jump, has_target, takes_symbol};
ghost use Rattle.isa.specs.Program.{is_least_offset, is_least, is_formed, is_branch, may_aim, may_rest};

use crate::control::{BranchOffset, Jump};
use crate::inst::Inst;
use crate::note::NoteKind;
use crate::program::{Item, Relocation, Target};
use prunum::Memory;
use std::alloc::Global;
use std::collections::BTreeSet;

/// Whether the items are a whole program: labels, targets and notes stand as they must. It takes memory for the labels,
/// and n log n time.
pub fn is_whole(alloc: Global, items: &[Item]) -> Result<bool, Memory>
    ensures { IfOk result (λ whole. IsTrue whole ↔ IsWhole items.now) }
{
    judge(alloc, items)
}

fn judge(alloc: Global, items: &[Item]) -> Result<bool, Memory>
    ensures { IfOk result (λ whole. whole ≡ is_judged_whole items.now) }
{
    if !are_formed(items) {
        return Ok(false);
    }
    let mut all = BTreeSet::new(alloc);
    if !are_placed(&mut all, items)? {
        return Ok(false);
    }
    if !are_there(&all, items) {
        return Ok(false);
    }
    notes_stand(alloc, items)
}

// ---- labels

fn has(labels: &BTreeSet<u32>, l: u32) -> bool
    ensures { result ≡ has labels.now.keys l }
{
    labels.contains(&l)
}

fn add(labels: &mut BTreeSet<u32>, l: u32) -> Result<(), Memory>
    ensures { OnOk result (HaveSame labels.new.keys (l ∷ labels.old.keys)) }
{
    labels.insert(l)?;
    Ok(())
}

/// Adds the label that the item is.
fn add_label(labels: &mut BTreeSet<u32>, item: &Item) -> Result<(), Memory>
    ensures { OnOk result (HaveSame labels.new.keys (with_label item.now labels.old.keys)) }
{
    if let Item::Label(l) = *item {
        add(labels, l)?;
    }
    Ok(())
}

/// Whether the item may stand in front of items with these labels.
fn may_precede(behind: &BTreeSet<u32>, item: &Item) -> bool
    ensures { result ≡ may_precede behind.now.keys item.now }
{
    match *item {
        Item::Label(l) => !has(behind, l),
        Item::Aimed {
            inst: Inst::Loop { .. },
            target: Target::Label(l),
        } => has(behind, l),
        _ => true,
    }
}

/// Puts the labels of the items into the empty set, from the back on, up to an item that may not stand there.
fn are_placed(all: &mut BTreeSet<u32>, items: &[Item]) -> Result<bool, Memory>
    requires { all.old.keys ≡ [] }
    ensures placed { IfOk result (λ placed. placed ≡ are_placed items.now) }
    ensures labels { IfOk result (λ placed. IsTrue placed → HaveSame all.new.keys (labels items.now)) }
{
    let mut rest = items;
    while let Some((item, front)) = rest.split_last() {
        if !may_precede(all, item) {
            return Ok(false);
        }
        add_label(all, item)?;
        rest = front;
    }
    Ok(true)
}

fn is_there(all: &BTreeSet<u32>, item: &Item) -> bool
    ensures { result ≡ is_there all.now.keys item.now }
{
    match *item {
        Item::Aimed { target, .. } => match target {
            Target::Label(l) => has(all, l),
            Target::Symbol { .. } => true,
        },
        _ => true,
    }
}

fn are_there(all: &BTreeSet<u32>, items: &[Item]) -> bool
    ensures { result ≡ list_all (is_there all.now.keys) items.now }
{
    items.iter().all(|item| is_there(all, item))
}

// ---- items

fn is_numbered_jump(i: &Inst) -> bool
    ensures { result ≡ is_numbered_jump i.now }
{
    match *i {
        Inst::Jmp { to: Jump::Word(_) } => true,
        Inst::Jal {
            to: Jump::Word(_),
            ..
        } => true,
        _ => false,
    }
}

fn has_target(i: &Inst) -> bool
    ensures { result ≡ has_target i.now }
{
    match *i {
        Inst::Loop { .. } | Inst::Branch { .. } | Inst::Qba { .. } => true,
        _ => is_numbered_jump(i),
    }
}

fn takes_symbol(kind: Relocation, i: &Inst) -> bool
    ensures { result ≡ takes_symbol kind i.now }
{
    match kind {
        Relocation::Address => false,
        Relocation::Low | Relocation::High => matches!(i, Inst::Ldi { .. }),
        Relocation::Word => is_numbered_jump(i),
    }
}

fn is_least_offset(o: BranchOffset) -> bool
    ensures { result ≡ is_least_offset o }
{
    o.words == -512
}

/// Whether the number in place of the target is the least that its type has.
fn is_least(i: &Inst) -> bool
    ensures { result ≡ is_least i.now }
{
    match *i {
        Inst::Loop { body } => body.length == 1,
        Inst::Branch { offset, .. } | Inst::Qba { offset } => is_least_offset(offset),
        Inst::Jmp { to: Jump::Word(n) } => n == 0,
        Inst::Jal {
            to: Jump::Word(n),
            ..
        } => n == 0,
        Inst::Ldi { n, .. } => n == 0,
        _ => true,
    }
}

fn is_formed(item: &Item) -> bool
    ensures { result ≡ is_formed item.now }
{
    match *item {
        Item::Label(_) | Item::Note { .. } | Item::Source(_) => true,
        Item::Whole(i) => !has_target(&i),
        Item::Aimed { inst, target } => match target {
            Target::Label(_) => has_target(&inst) && is_least(&inst),
            Target::Symbol { kind, .. } => takes_symbol(kind, &inst) && is_least(&inst),
        },
    }
}

fn are_formed(items: &[Item]) -> bool
    ensures { result ≡ list_all is_formed items.now }
{
    items.iter().all(is_formed)
}

// ---- notes

fn is_branch(i: &Inst) -> bool
    ensures { result ≡ is_branch i.now }
{
    match *i {
        Inst::Branch { .. } | Inst::Qba { .. } => true,
        Inst::Jmp { to: Jump::Word(_) } => true,
        _ => false,
    }
}

/// Whether a note may stand on an instruction with this target.
fn may_aim(before: &BTreeSet<u32>, kind: NoteKind, i: &Inst, target: &Target) -> bool
    ensures { result ≡ may_aim before.now.keys kind i.now target.now }
{
    match kind {
        NoteKind::Enter | NoteKind::DelayIn | NoteKind::DelayOut | NoteKind::Leave => true,
        NoteKind::Own | NoteKind::Return => false,
        NoteKind::Turns => {
            is_branch(i)
                && match *target {
                    Target::Label(l) => has(before, l),
                    Target::Symbol { .. } => true,
                }
        }
    }
}

/// Whether a note may stand on an instruction without a target.
fn may_rest(kind: NoteKind, i: &Inst) -> bool
    ensures { result ≡ may_rest kind i.now }
{
    match kind {
        NoteKind::Enter | NoteKind::DelayIn | NoteKind::DelayOut | NoteKind::Leave => true,
        NoteKind::Own => matches!(i, Inst::Load { .. } | Inst::Store { .. }),
        NoteKind::Return => matches!(i, Inst::Jmp { to: Jump::Field(_) }),
        NoteKind::Turns => false,
    }
}

fn may_all_rest(kinds: &[NoteKind], i: &Inst) -> bool
    ensures { result ≡ list_all (λ k. may_rest k i.now) kinds.now }
{
    kinds.iter().all(|k| may_rest(*k, i))
}

fn may_all_aim(before: &BTreeSet<u32>, kinds: &[NoteKind], i: &Inst, target: &Target) -> bool
    ensures { result ≡ list_all (λ k. may_aim before.now.keys k i.now target.now) kinds.now }
{
    kinds.iter().all(|k| may_aim(before, *k, i, target))
}

fn has_kind(kinds: &[NoteKind], kind: NoteKind) -> bool
    ensures { result ≡ has_kind kinds.now kind }
{
    kinds.iter().any(|k| k.number() == kind.number())
}

/// Whether the item may stand behind these labels, and behind notes of these kinds that are on the next word.
fn may_follow(before: &BTreeSet<u32>, kinds: &[NoteKind], item: &Item) -> bool
    ensures { result ≡ may_follow before.now.keys kinds.now item.now }
{
    match item {
        Item::Note { kind, value } => kind.allows(*value) && !has_kind(kinds, *kind),
        Item::Whole(i) => may_all_rest(kinds, i),
        Item::Aimed { inst, target } => may_all_aim(before, kinds, inst, target),
        Item::Label(_) | Item::Source(_) => true,
    }
}

/// Goes behind the item, with the kinds of the notes whose word is still to come.
fn pass(kinds: &mut Vec<NoteKind>, item: &Item) -> Result<(), Memory>
    ensures { OnOk result (kinds.new.items ≡ kinds_behind kinds.old.items item.now) }
{
    match *item {
        Item::Note { kind, .. } => kinds.push(kind)?,
        Item::Whole(_) | Item::Aimed { .. } => kinds.clear(),
        Item::Label(_) | Item::Source(_) => {}
    }
    Ok(())
}

fn is_empty(kinds: &[NoteKind]) -> bool
    ensures { result ≡ is_empty kinds.now }
{
    kinds.is_empty()
}

fn notes_stand(alloc: Global, items: &[Item]) -> Result<bool, Memory>
    ensures { IfOk result (λ stand. stand ≡ notes_stand [] [] items.now) }
{
    let mut before = BTreeSet::new(alloc);
    let mut kinds = Vec::new(alloc);
    let mut rest = items;
    while let Some((item, behind)) = rest.split_first() {
        if !may_follow(&before, &kinds, item) {
            return Ok(false);
        }
        add_label(&mut before, item)?;
        pass(&mut kinds, item)?;
        rest = behind;
    }
    Ok(is_empty(&kinds))
}
