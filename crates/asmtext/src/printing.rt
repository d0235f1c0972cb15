//! Programs as text.

ghost use Rattle.std.specs.Prelude.{◌≡◌, ◌++◌, ◌∷◌, [], IfOk, OnOk};
ghost use Rattle.std.specs.String.{string_bytes};
ghost use Rattle.textline.specs.Lines.{text_of};
ghost use Rattle.asmline.specs.Printing.{line_text, word_text};
ghost use Rattle.asmtext.specs.Held.{labels_held};
ghost use Rattle.asmtext.specs.Printing.{item_lines, labels_of, program_text};

use crate::numbers::Numbers;
use asmline::PrintedLine;
use asmword::{Printed, form_of};
use isa::{AsmProgram, Inst, Item};
use prunum::Memory;
use std::alloc::Global;
use std::fmt::Write;

/// The text of a program, with a line for each label, note and instruction. Labels are L1, L2 and on, by first appearance. Lines of
/// the source are not printed, and of a symbol no more than the instruction that takes its place.
pub fn print_asm(alloc: Global, p: &AsmProgram) -> Result<Vec<u8>, Memory>
    ensures { IfOk result (λ text. text.items ≡ program_text p.now) }
{
    print_items(alloc, p.items())
}

fn print_items(alloc: Global, items: &[Item]) -> Result<Vec<u8>, Memory>
    ensures { IfOk result (λ text. text.items ≡ program_text items.now) }
{
    let numbers = Numbers::of(alloc, items)?;
    let text = text_of(alloc, &numbers, items)?;
    Ok(text.into_bytes())
}

fn text_of(alloc: Global, numbers: &Numbers, items: &[Item]) -> Result<String, Memory>
    requires { labels_held numbers.now ≡ labels_of items.now }
    ensures { IfOk result (λ text. string_bytes text ≡ program_text items.now) }
{
    let mut text = String::new(alloc);
    for item in items {
        push_item(&mut text, numbers, item)?;
    }
    Ok(text)
}

/// Puts a line behind the text.
fn push_line(text: &mut String, line: PrintedLine) -> Result<(), Memory>
    ensures { OnOk result (string_bytes text.new ≡ string_bytes text.old ++ text_of (line_text line ∷ [])) }
{
    writeln!(text, "{line}")?;
    Ok(())
}

fn push_word(text: &mut String, inst: &Inst, label: u32) -> Result<(), Memory>
    ensures { OnOk result (string_bytes text.new ≡ string_bytes text.old ++ text_of (word_text label inst.now ∷ [])) }
{
    let form = form_of(inst);
    push_line(text, PrintedLine::Word(Printed { form, label }))
}

/// Puts the lines of an item behind the text.
fn push_item(text: &mut String, numbers: &Numbers, item: &Item) -> Result<(), Memory>
    ensures { OnOk result (string_bytes text.new ≡ string_bytes text.old ++ text_of (item_lines (labels_held numbers.now) item.now)) }
{
    match item {
        Item::Label(label) => push_line(text, PrintedLine::Label(numbers.number(*label))),
        Item::Note { kind, value } => push_line(
            text,
            PrintedLine::Note {
                kind: *kind,
                value: *value,
            },
        ),
        Item::Source(_) => Ok(()),
        Item::Whole(inst) => push_word(text, inst, 0),
        Item::Aimed { inst, target } => push_word(text, inst, numbers.number_aimed(target)),
    }
}
