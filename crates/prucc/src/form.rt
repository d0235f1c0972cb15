//! The one form of tree that is compiled so far.

ghost use Rattle.std.specs.Prelude.{◌≡◌, ℕ, List, IfOk, IfErr, Some, is_some, nat_lt, if◌then◌else◌, None};
ghost use Rattle.prucc.specs.declared.form.FormFault.TheVariants.{Memory};
ghost use Rattle.prucc.specs.Form as form;
ghost use Rattle.prucc.specs.SourceAnswer.{BodyFails, FormFails, MainOf, ReadsAs, first_begin};
ghost use Rattle.std.specs.Option.{option_copied};

use csyn::{
    Base, ExprKind, Exprs, Head, Items, Parameters, Pointers, Span, Specifiers, StmtKind, Tree,
    UnitKind, Units,
};
use std::alloc::{AllocError, AllocFailed, Global};

/// How many constants a source may write: with the halt they fill the core's 2,048 words.
const MOST_WRITES: usize = 2047;

/// Why a tree gives no writes.
#[derive(Clone, Copy, Debug, PartialEq, Eq)]
pub enum FormFault {
    /// The tree departs from the form here.
    At(Span),
    Memory,
}

impl From<AllocError> for FormFault {
    ghost from_gives = { λ _ e. e ≡ Memory };

    fn from(_: AllocError) -> Self {
        FormFault::Memory
    }
}

impl<T: Drop> From<AllocFailed<T>> for FormFault {
    ghost from_gives = { λ _ e. e ≡ Memory };

    fn from(_: AllocFailed<T>) -> Self {
        FormFault::Memory
    }
}

fn is_plain_void(specifiers: &Specifiers) -> bool
    ensures { result ≡ form.is_plain_void specifiers.now }
{
    matches!(specifiers.base, Base::Void)
        && !specifiers.is_static
        && !specifiers.is_inline
        && !specifiers.is_const
        && !specifiers.is_volatile
}

/// Whether it is `void main(void)`.
#[tactic(auto, unfolding(crate::specs::Form::is_main))]
fn is_main(head: &Head) -> bool
    ensures { result ≡ form.is_main head.now }
{
    is_plain_void(&head.specifiers)
        && matches!(head.pointers, Pointers::End)
        && head.name.as_bytes() == b"main".as_slice()
        && matches!(head.parameters, Parameters::Void)
}

fn is_output(target: &ExprKind) -> bool
    ensures { result ≡ form.is_output target.now }
{
    match target {
        ExprKind::Name(name) => name.as_bytes() == b"__R30".as_slice(),
        _ => false,
    }
}

fn loadable_of(value: &ExprKind) -> Option<u16>
    ensures { result ≡ form.loadable_of value.now }
{
    match value {
        ExprKind::Number(number) => u16::try_from(number.value).ok(),
        _ => None,
    }
}

fn assigned(kind: &ExprKind) -> Option<u16>
    ensures { result ≡ form.assigned kind.now }
{
    match kind {
        ExprKind::Assign(target, value) => {
            if is_output(&target.kind) {
                loadable_of(&value.kind)
            } else {
                None
            }
        }
        _ => None,
    }
}

/// The number K of the statement `__R30 = K;`.
#[tactic(auto, unfolding(crate::specs::Form::write_of))]
fn write_of(statement: &StmtKind) -> Option<u16>
    ensures { result ≡ form.write_of statement.now }
{
    match statement {
        StmtKind::Expression(Some(e)) => assigned(&e.kind),
        _ => None,
    }
}

fn calls_halt(kind: &ExprKind) -> bool
    ensures { result ≡ form.calls_halt kind.now }
{
    match kind {
        ExprKind::CallFunction(name, arguments) => {
            name.as_bytes() == b"__halt".as_slice() && matches!(arguments, Exprs::End)
        }
        _ => false,
    }
}

/// Whether it is the statement `__halt();`.
#[tactic(auto, unfolding(crate::specs::Form::halts))]
fn halts(statement: &StmtKind) -> bool
    ensures { result ≡ form.halts statement.now }
{
    match statement {
        StmtKind::Expression(Some(e)) => calls_halt(&e.kind),
        _ => false,
    }
}

/// The number that the statement writes, where it is a write and not one too many behind so many others.
fn allowed(statement: &StmtKind, written: usize) -> Option<u16>
    ensures { result ≡ (if nat_lt written MOST_WRITES then form.write_of statement.now else None) }
{
    if written < MOST_WRITES {
        write_of(statement)
    } else {
        None
    }
}

fn is_end(items: &Items) -> bool
    ensures { result ≡ form.is_end items.now }
{
    matches!(items, Items::End)
}

/// What a body writes in a source that ends at `end`.
fn body_writes(alloc: Global, body: &Items, end: Span) -> Result<Vec<u16>, FormFault>
    ensures writes { IfOk result (λ writes. form.BodyWrites body.now writes.items) }
    ensures each { IfOk result (λ writes. form.AreWrites writes.items) }
    ensures err { IfErr result (BodyFails end body.now) }
{
    let mut writes = Vec::new(alloc);
    let mut left = body;
    while let Items::Statement(statement, rest) = left {
        let Some(k) = allowed(&statement.kind, writes.len()) else {
            if halts(&statement.kind) && is_end(rest) {
                return Ok(writes);
            }
            return Err(FormFault::At(statement.mark.span));
        };
        writes.push(k)?;
        left = rest;
    }
    match left {
        Items::Object(object, _) => Err(FormFault::At(object.mark.span)),
        _ => Err(FormFault::At(end)),
    }
}

/// The body of the function, where the unit is one with the head `void main(void)`.
fn main_of(kind: &UnitKind) -> Option<&Items>
    ensures { MainOf kind.now (option_copied result) }
{
    match kind {
        UnitKind::Function(head, body) if is_main(head) => Some(body),
        _ => None,
    }
}

fn first_begin(units: &Units) -> Option<Span>
    ensures { result ≡ first_begin units.now }
{
    match units {
        Units::End => None,
        Units::More(unit, _) => Some(unit.mark.span),
    }
}

/// The body of the one unit of a source that ends at `end`.
#[tactic(auto, unfolding(crate::specs::Form::IsMainAlone, crate::specs::Form::units_departure))]
fn main_body(units: &Units, end: Span) -> Result<&Items, Span>
    ensures main { IfOk result (λ body. form.IsMainAlone units.now body.now) }
    ensures err { IfErr result (λ span. form.units_departure end units.now ≡ Some span) }
{
    let Units::More(unit, rest) = units else {
        return Err(end);
    };
    let Some(body) = main_of(&unit.kind) else {
        return Err(unit.mark.span);
    };
    match first_begin(rest) {
        Some(second) => Err(second),
        None => Ok(body),
    }
}

fn tree_writes(alloc: Global, tree: &Tree) -> Result<Vec<u16>, FormFault>
    ensures writes { IfOk result (λ writes. form.IsProgram tree.now.units writes.items) }
    ensures err { IfErr result (FormFails tree.now) }
{
    let end = tree.end();
    match main_body(tree.units(), end) {
        Ok(body) => body_writes(alloc, body, end),
        Err(span) => Err(FormFault::At(span)),
    }
}

/// The constants that a tree of the form writes.
pub fn writes_of(alloc: Global, tree: &Tree) -> Result<Vec<u16>, FormFault>
    ensures writes { IfOk result (λ writes. form.IsProgram tree.now.units writes.items) }
    ensures err { IfErr result (FormFails tree.now) }

    // A tree of the form is read as what it writes, unless memory is wanting: it departs nowhere.
    ensures read { (ks : List ℕ) → form.IsProgram tree.now.units ks → ReadsAs ks result }
{
    tree_writes(alloc, tree)
}
