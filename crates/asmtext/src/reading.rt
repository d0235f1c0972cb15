//! Texts, read.

ghost use Rattle.std.specs.Prelude.{◌≡◌, ◌+◌, ◌<◌, Some, ◌^◌, ◌++◌, ◌∷◌, [], ℕ, List, IfOk, IfErr, OnOk, length, option_to_list};
ghost use Rattle.std.specs.List.{AllByRecursion};
ghost use Rattle.isa.specs.Program.{IsWhole};
ghost use Rattle.asmline.specs.Lines.{said_in};
ghost use Rattle.asmline.specs.Said.{said_by};
ghost use Rattle.branchfit.specs.Loops.{HasShortLoops};
ghost use Rattle.asmtext.specs.declared.cause.AsmFault.TheVariants as faults;
ghost use Rattle.asmtext.specs.Causes.{AreGood};
ghost use Rattle.asmtext.specs.Held.{told, all_told, names_held};
ghost use Rattle.asmtext.specs.Items.{line_items, items_of};
ghost use Rattle.asmtext.specs.Labels.{names_of, lines_said};
ghost use Rattle.asmtext.specs.Made.{IsLabelled};
ghost use Rattle.asmtext.specs.Reading.{IsItemOf, IsFaultOf};

use crate::cause::{AsmCause, AsmFault};
use crate::items::{items_of, label_item, statement_item};
use crate::judge::first_bad;
use crate::names::Names;
use crate::places::Places;
use asmline::{Line, read_line};
use branchfit::long_loop;
use isa::{AsmProgram, Item};
use prunum::Memory;
use std::alloc::Global;
use textline::Lines;

/// The program that an assembly text of fewer than 2^31 bytes is, with labels numbered from 1 by first appearance; or its first
/// bad line, and the first of its causes. The bodies of LOOPs are judged where no line is bad otherwise.
#[tactic(auto, using(crate::proofs::LabelledLemmas::all_labelled))]
pub fn read_asm(alloc: Global, bytes: &[u8]) -> Result<AsmProgram, AsmFault>
    requires { length bytes.now < 2 ^ 31 }
    // What is read is the program of the lines.
    ensures program { IfOk result (λ program. program ≡ items_of (lines_said bytes.now)) }
    // None of them is bad.
    ensures good { OnOk result (AreGood (length (lines_said bytes.now)) (lines_said bytes.now)) }
    ensures loops { IfOk result HasShortLoops }
    // So the program is whole.
    ensures whole { IfOk result IsWhole }
    // A fault is the first bad line.
    ensures fault { IfErr result (IsFaultOf (lines_said bytes.now)) }
{
    let lines = read_lines(alloc, bytes)?;
    read_said(alloc, &lines)
}

fn read_whole(line: &[u8]) -> Option<Line<'_>>
    ensures { told result ≡ said_in line.now }
{
    read_line(line)
}

fn push_line<'a>(lines: &mut Vec<Option<Line<'a>>>, line: &'a [u8]) -> Result<(), Memory>
    ensures told { OnOk result (all_told lines.new.items ≡ all_told lines.old.items ++ said_in line.entry.now ∷ []) }
    ensures length { OnOk result (length lines.new.items ≡ length lines.old.items + 1) }
{
    lines.push(read_whole(line))?;
    Ok(())
}

/// What each line says.
fn read_lines<'a>(alloc: Global, bytes: &'a [u8]) -> Result<Vec<Option<Line<'a>>>, Memory>
    requires { length bytes.now < 2 ^ 31 }
    ensures told { IfOk result (λ lines. all_told lines.items ≡ lines_said bytes.entry.now) }
    ensures few { IfOk result (λ lines. length lines.items < 2 ^ 31) }
{
    let mut said = Vec::new(alloc);
    let mut lines = Lines::of(bytes);
    while let Some(line) = lines.next_line() {
        push_line(&mut said, line)?;
    }
    Ok(said)
}

fn fault(number: usize, cause: AsmCause) -> AsmFault
    requires { number < 2 ^ 31 }
    ensures { result ≡ faults.Line (number + 1) cause }
{
    AsmFault::Line {
        line: number as u32 + 1,
        cause,
    }
}

#[tactic(auto, using(crate::proofs::ReadLemmas::first_line, crate::proofs::ReadLemmas::good_told))]
fn read_said(alloc: Global, lines: &[Option<Line<'_>>]) -> Result<AsmProgram, AsmFault>
    requires few { length lines.now < 2 ^ 31 }
    requires labelled { AllByRecursion IsLabelled (all_told lines.now) }
    ensures program { IfOk result (λ program. program ≡ items_of (all_told lines.now)) }
    ensures good { OnOk result (AreGood (length (all_told lines.now)) (all_told lines.now)) }
    ensures loops { IfOk result HasShortLoops }
    ensures whole { IfOk result IsWhole }
    ensures fault { IfErr result (IsFaultOf (all_told lines.now)) }
{
    let places = Places::of(alloc, lines)?;
    if let Some((number, cause)) = first_bad(alloc, &places, lines)? {
        return Err(fault(number, cause));
    }
    let names = Names::of(alloc, lines)?;
    read_good(alloc, &names, lines)
}

/// The program of lines that are not bad, or its first LOOP that is too long or has no body.
fn read_good(
    alloc: Global,
    names: &Names<'_>,
    lines: &[Option<Line<'_>>],
) -> Result<AsmProgram, AsmFault>
    requires few { length lines.now < 2 ^ 31 }
    requires names { names_held names.now ≡ names_of (all_told lines.now) }
    requires labelled { AllByRecursion IsLabelled (all_told lines.now) }
    requires good { AreGood (length lines.now) (all_told lines.now) }
    ensures program { IfOk result (λ program. program ≡ items_of (all_told lines.now)) }
    ensures loops { IfOk result HasShortLoops }
    ensures whole { IfOk result IsWhole }
    ensures fault { IfErr result (IsFaultOf (all_told lines.now)) }
{
    let program = AsmProgram::new(items_of(alloc, names, lines)?);
    match long_loop(alloc, &program)? {
        Some(item) => Err(fault(line_of_item(names, lines, item as usize), AsmCause::Range)),
        None => Ok(program),
    }
}

fn count_of(item: Option<Item>) -> usize
    ensures value { result ≡ length (option_to_list item) }
    ensures bound { result < 2 }
{
    match item {
        Some(_) => 1,
        None => 0,
    }
}

fn count_said(names: &Names<'_>, line: &Line<'_>) -> usize
    requires { length (names_held names.now) < 2 ^ 32 }
    ensures value { result ≡ length (line_items (names_held names.now) (Some (said_by line.now))) }
    ensures bound { result < 3 }
{
    count_of(label_item(names, line)) + count_of(statement_item(names, line))
}

/// How many items a line says.
fn count_line(names: &Names<'_>, line: &Option<Line<'_>>) -> usize
    requires { length (names_held names.now) < 2 ^ 32 }
    ensures value { result ≡ length (line_items (names_held names.now) (told line.now)) }
    ensures bound { result < 3 }
{
    match line {
        Some(line) => count_said(names, line),
        None => 0,
    }
}

/// The line, from 0, that says an item.
fn line_of_item(names: &Names<'_>, lines: &[Option<Line<'_>>], item: usize) -> usize
    requires few { length lines.now < 2 ^ 31 }
    requires names { names_held names.now ≡ names_of (all_told lines.now) }
    requires within { item < length (items_of (all_told lines.now)) }
    ensures line { IsItemOf (all_told lines.now) item result }
    ensures bound { result < length lines.now }
{
    let mut count = 0;
    for number in 0..lines.len() {
        count += count_line(names, &lines[number]);
        if item < count {
            return number;
        }
    }
    0
}
