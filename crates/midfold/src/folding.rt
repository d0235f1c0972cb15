//! Operations on known numbers.

ghost use Rattle.std.specs.Prelude.{◌≡◌, ◌+◌, ◌≤◌, ◌<◌, ◌∷◌, ◌++◌, length, OnOk};
ghost use Rattle.midcode.specs.Operation.{writes};
ghost use Rattle.midcode.specs.Function.{kinds, IsNode, AtNode, IsValidFunction};
ghost use Rattle.midopt.specs.Better.{IsBetterFunction};
ghost use Rattle.midopt.specs.Tidy.{number_of, IsFolded};
ghost use Rattle.midfold.specs.Folding.{width_at, cut, constant, improved_binary, improved, improved_kind, noted};

use crate::numbers::Numbers;
use linkarena::NodeId;
use midcode::{BinaryOp, MidFn, Op, OpKind, Operand, VReg};
use midopt::{binary_number, unary_number, widened_number};
use prunum::{Memory, Width, wrap};
use std::alloc::Global;

fn width_at(widths: &[Width], r: VReg) -> Width
    ensures { result ≡ width_at widths.now r.0 }
{
    match widths.get(r.0 as usize) {
        None => Width::B4,
        Some(width) => *width,
    }
}

/// The number as a register holds it.
fn cut(widths: &[Width], r: VReg, number: u32) -> u32
    ensures { result ≡ cut widths.now r.0 number }
{
    wrap(width_at(widths, r), u64::from(number))
}

fn constant(widths: &[Width], to: VReg, number: u32) -> OpKind
    ensures { result ≡ constant widths.now to number }
{
    OpKind::Constant {
        to,
        value: cut(widths, to, number),
    }
}

fn improved_binary(
    widths: &[Width],
    held: &Numbers,
    op: BinaryOp,
    to: VReg,
    left: VReg,
    right: Operand,
) -> Option<OpKind>
    ensures { result ≡ improved_binary widths.now held.now.held op to left right }
{
    match right {
        Operand::Constant(b) => {
            let a = held.get(left)?;
            Some(constant(widths, to, binary_number(op, a, b)))
        }
        Operand::Register(right) => {
            let b = held.get(right)?;
            match held.get(left) {
                Some(a) => Some(constant(widths, to, binary_number(op, a, b))),
                None => Some(OpKind::Binary {
                    op,
                    to,
                    left,
                    right: Operand::Constant(b),
                }),
            }
        }
    }
}

/// What may stand in the place of an operation where these numbers are held.
fn improved(widths: &[Width], held: &Numbers, kind: &OpKind) -> Option<OpKind>
    ensures { result ≡ improved widths.now held.now.held kind.now }
{
    match kind {
        OpKind::Copy { to, from } => Some(constant(widths, *to, held.get(*from)?)),
        OpKind::Unary { op, to, from } => {
            let a = held.get(*from)?;
            Some(constant(widths, *to, unary_number(*op, a)))
        }
        OpKind::Binary {
            op,
            to,
            left,
            right,
        } => improved_binary(widths, held, *op, *to, *left, *right),
        OpKind::Widen { to, from } => {
            let a = held.get(*from)?;
            Some(constant(widths, *to, widened_number(width_at(widths, *from), a)))
        }
        _ => None,
    }
}

/// Puts into a node what may stand in its operation's place.
fn improve(f: &mut MidFn, held: &Numbers, node: NodeId)
    requires node { IsNode f.old.nodes node }
    requires valid { IsValidFunction f.old }
    ensures { AtNode f.old.nodes node (λ front o back. f.new ≡ record f.old {
      nodes = front ++ (node, record o { kind = improved_kind f.old.registers held.now.held o.kind }) ∷ back;
    }) }
{
    let op = *f.get(node);
    if let Some(kind) = improved(f.registers(), held, &op.kind) {
        f.replace(
            node,
            Op {
                line: op.line,
                kind,
            },
        );
    }
}

/// The register that an operation writes.
fn register_written(kind: &OpKind) -> Option<VReg>
    ensures { result ≡ writes kind.now }
{
    match kind {
        OpKind::Constant { to, .. } => Some(*to),
        OpKind::Address { to, .. } => Some(*to),
        OpKind::Copy { to, .. } => Some(*to),
        OpKind::Unary { to, .. } => Some(*to),
        OpKind::Binary { to, .. } => Some(*to),
        OpKind::Widen { to, .. } => Some(*to),
        OpKind::Load { to, .. } => Some(*to),
        OpKind::Read { to, .. } => Some(*to),
        OpKind::ReadRegister { to, .. } => Some(*to),
        OpKind::ReadPad { to, .. } => Some(*to),
        OpKind::Call { to, .. } => *to,
        _ => None,
    }
}

/// Notes what is known behind an operation.
fn note(widths: &[Width], held: &mut Numbers, kind: &OpKind)
    requires { held.old.rounds < 1048577 }
    ensures held { held.new.held ≡ noted widths.now kind.now held.old.held }
    ensures rounds { held.new.rounds ≤ held.old.rounds + 1 }
{
    match kind {
        OpKind::Label(_) => held.forget(),
        OpKind::Constant { to, value } => held.set(*to, Some(cut(widths, *to, *value))),
        _ => {
            if let Some(r) = register_written(kind) {
                held.set(r, None);
            }
        }
    }
}

/// Puts constants in the place of operations on known numbers: those of constants that no label parts from them. The function then does
/// the same, in every program. Where memory is wanting it is as before.
pub fn fold(alloc: Global, f: &mut MidFn) -> Result<(), Memory>
    ensures better { IsBetterFunction f.old f.new }
    ensures done { OnOk result (IsFolded (kinds f.new)) }
{
    let count = f.ops().count();
    let mut held = Numbers::new(alloc, f.registers().len())?;
    let mut at = f.first();
    for _ in 0..count {
        let Some(node) = at else { break };
        improve(f, &held, node);
        note(f.registers(), &mut held, &f.get(node).kind);
        at = f.next(node);
    }
    Ok(())
}
