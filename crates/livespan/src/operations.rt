//! The operations of a function as a list, and what they name.

ghost use Rattle.std.specs.Prelude.{◌≡◌, [], ◌∷◌, ◌++◌, IsTrue, ◌↔◌, Contains, Some, IfOk, ◌<◌, length};
ghost use Rattle.midcode.specs.Operation.{reads, writes, label_of, target_of, listed, base_reads};
ghost use Rattle.midcode.specs.Function.{kinds, IsValidFunction};
ghost use Rattle.subreg.specs.Span.{Stands, is_onward};

use midcode::{Base, Label, MidFn, OpKind, Operand, Registers, VReg, VolatileBase};
use prunum::Memory;
use std::alloc::Global;

/// The operations of a function in order.
pub fn operations(alloc: Global, f: &MidFn) -> Result<Vec<OpKind>, Memory>
    ensures exact { IfOk result (λ ks. ks.items ≡ kinds f.now) }

    // The function is valid.
    ensures valid { IsValidFunction f.now }
{
    let mut kinds = Vec::with_capacity(alloc, f.ops().count())?;
    let mut at = f.first();
    while let Some(node) = at {
        kinds.push(f.get(node).kind)?;
        at = f.next(node);
    }
    Ok(kinds)
}

/// The operation at a place.
pub fn kind_at(kinds: &[OpKind], place: usize) -> OpKind
    requires { place < length kinds.now }
    ensures { Stands kinds.now place result }
{
    kinds[place]
}

fn no_registers() -> Registers
    ensures { listed result ≡ [] }
{
    Registers {
        registers: [VReg(0); 8],
        count: 0,
    }
}

fn one(v: VReg) -> Registers
    ensures { listed result ≡ v ∷ [] }
{
    Registers {
        registers: [v; 8],
        count: 1,
    }
}

fn two(v: VReg, w: VReg) -> Registers
    ensures { listed result ≡ v ∷ w ∷ [] }
{
    Registers {
        registers: [v, w, w, w, w, w, w, w],
        count: 2,
    }
}

fn with_base(base: Base, v: VReg) -> Registers
    ensures { listed result ≡ base_reads base ++ v ∷ [] }
{
    match base {
        Base::Object(_) => one(v),
        Base::Register(b) => two(b, v),
    }
}

/// The registers that an operation reads, in order.
pub fn reads(kind: &OpKind) -> Registers
    ensures { listed result ≡ reads kind.now }
{
    match *kind {
        OpKind::Copy { from, .. }
        | OpKind::Unary { from, .. }
        | OpKind::Widen { from, .. }
        | OpKind::WriteRegister { from, .. }
        | OpKind::WritePad { from, .. } => one(from),
        OpKind::Binary { left, right, .. } => match right {
            Operand::Register(right) => two(left, right),
            Operand::Constant(_) => one(left),
        },
        OpKind::Load { base, .. } => match base {
            Base::Object(_) => no_registers(),
            Base::Register(b) => one(b),
        },
        OpKind::Store { base, from, .. } => with_base(base, from),
        OpKind::Read { base, .. } => match base {
            VolatileBase::Address(_) => no_registers(),
            VolatileBase::Register(b) => one(b),
        },
        OpKind::Write { base, from, .. } => match base {
            VolatileBase::Address(_) => one(from),
            VolatileBase::Register(b) => two(b, from),
        },
        OpKind::Call { arguments, .. } => arguments,
        OpKind::Return(value) => match value {
            None => no_registers(),
            Some(v) => one(v),
        },
        OpKind::Branch { left, .. } => one(left),
        _ => no_registers(),
    }
}

pub fn is_read(kind: &OpKind, v: VReg) -> bool
    ensures { IsTrue result ↔ Contains (reads kind.now) v }
{
    let read = reads(kind);
    for n in 0..read.count as usize {
        if read.registers[n].0 == v.0 {
            return true;
        }
    }
    false
}

/// The register that an operation writes.
pub fn writes(kind: &OpKind) -> Option<VReg>
    ensures { result ≡ writes kind.now }
{
    match *kind {
        OpKind::Constant { to, .. }
        | OpKind::Address { to, .. }
        | OpKind::Copy { to, .. }
        | OpKind::Unary { to, .. }
        | OpKind::Binary { to, .. }
        | OpKind::Widen { to, .. }
        | OpKind::Load { to, .. }
        | OpKind::Read { to, .. }
        | OpKind::ReadRegister { to, .. }
        | OpKind::ReadPad { to, .. } => Some(to),
        OpKind::Call { to, .. } => to,
        _ => None,
    }
}

pub fn is_written(kind: &OpKind, v: VReg) -> bool
    ensures { IsTrue result ↔ (writes kind.now ≡ Some v) }
{
    match writes(kind) {
        None => false,
        Some(w) => w.0 == v.0,
    }
}

/// Whether the operation behind may be run next.
pub fn is_onward(kind: &OpKind) -> bool
    ensures { result ≡ is_onward kind.now }
{
    !matches!(*kind, OpKind::Return(_) | OpKind::Jump(_) | OpKind::Halt)
}

pub fn label(kind: &OpKind) -> Option<Label>
    ensures { result ≡ label_of kind.now }
{
    match *kind {
        OpKind::Label(label) => Some(label),
        _ => None,
    }
}

pub fn target(kind: &OpKind) -> Option<Label>
    ensures { result ≡ target_of kind.now }
{
    match *kind {
        OpKind::Jump(label) => Some(label),
        OpKind::Branch { to, .. } => Some(to),
        _ => None,
    }
}
