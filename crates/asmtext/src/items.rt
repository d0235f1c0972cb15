//! The items that lines are.

ghost use Rattle.std.specs.Prelude.{◌≡◌, ◌<◌, ◌^◌, ◌++◌, List, Some, IfOk, IfSome, OnOk, length, option_to_list};
ghost use Rattle.std.specs.List.{AllByRecursion};
ghost use Rattle.asmline.specs.Said.{said_by, saying_of};
ghost use Rattle.asmtext.specs.Held.{told, all_told, names_held};
ghost use Rattle.asmtext.specs.Labels.{names_of};
ghost use Rattle.asmtext.specs.Items.{label_item, saying_item, line_items, items_of};
ghost use Rattle.asmtext.specs.Made.{IsMadeOf, IsMadeSaying, IsMade};
ghost use Rattle.asmword.specs.Instructions.{made};
ghost use Rattle.branchfit.specs.Fits.{named};

use crate::names::Names;
use asmline::{Line, Statement};
use asmword::{Form, instruction};
use isa::{Inst, Item, Target};
use prunum::Memory;
use std::alloc::Global;

pub fn label_item(names: &Names<'_>, line: &Line<'_>) -> Option<Item>
    requires { length (names_held names.now) < 2 ^ 32 }
    ensures { result ≡ label_item (names_held names.now) (said_by line.now).label }
{
    match line.label {
        Some(name) => Some(Item::Label(names.number(name))),
        None => None,
    }
}

fn word(form: Form) -> Option<Inst>
    ensures value { result ≡ made form.mnemonic form.operands }
    ensures made { IsMadeOf form }
{
    instruction(form)
}

/// The value of a note, or the greatest in place of a larger one.
fn named(value: u64) -> u32
    ensures { result ≡ named value }
{
    value.min(u64::from(u32::MAX)) as u32
}

pub fn statement_item(names: &Names<'_>, line: &Line<'_>) -> Option<Item>
    requires { length (names_held names.now) < 2 ^ 32 }
    ensures item { result ≡ saying_item (names_held names.now) (said_by line.now).saying }
    ensures made { IsMadeSaying (said_by line.now).saying }
{
    match line.statement {
        Statement::Nothing => None,
        Statement::Note { kind, value } => Some(Item::Note {
            kind,
            value: named(value),
        }),
        Statement::Whole(form) => word(form).map(Item::Whole),
        Statement::Aimed { form, name } => match word(form) {
            Some(inst) => Some(Item::Aimed {
                inst,
                target: Target::Label(names.number(name)),
            }),
            None => None,
        },
    }
}

fn push(items: &mut Vec<Item>, item: Option<Item>) -> Result<(), Memory>
    ensures { OnOk result (items.new.items ≡ items.old.items ++ option_to_list item) }
{
    if let Some(item) = item {
        items.push(item)?;
    }
    Ok(())
}

fn push_said(items: &mut Vec<Item>, names: &Names<'_>, line: &Line<'_>) -> Result<(), Memory>
    requires { length (names_held names.now) < 2 ^ 32 }
    ensures items { OnOk result (items.new.items ≡ items.old.items ++ line_items (names_held names.now) (Some (said_by line.now))) }
    ensures made { OnOk result (IsMadeSaying (said_by line.now).saying) }
{
    push(items, label_item(names, line))?;
    push(items, statement_item(names, line))
}

fn push_line(
    items: &mut Vec<Item>,
    names: &Names<'_>,
    line: &Option<Line<'_>>,
) -> Result<(), Memory>
    requires { length (names_held names.now) < 2 ^ 32 }
    ensures items { OnOk result (items.new.items ≡ items.old.items ++ line_items (names_held names.now) (told line.now)) }
    ensures made { OnOk result (IsMade (told line.now)) }
{
    match line {
        Some(line) => push_said(items, names, line),
        None => Ok(()),
    }
}

/// The items that the lines are, where these are the names that they tell.
pub fn items_of(
    alloc: Global,
    names: &Names<'_>,
    lines: &[Option<Line<'_>>],
) -> Result<Vec<Item>, Memory>
    requires few { length (names_held names.now) < 2 ^ 32 }
    requires names { names_held names.now ≡ names_of (all_told lines.now) }
    ensures items { IfOk result (λ items. items.items ≡ items_of (all_told lines.now)) }
    ensures made { IfOk result (λ _. AllByRecursion IsMade (all_told lines.now)) }
{
    let mut items = Vec::new(alloc);
    for line in lines {
        push_line(&mut items, names, line)?;
    }
    Ok(items)
}
