//! The registers that an operation names.

ghost use Rattle.std.specs.Prelude.{◌≡◌, ℕ, [], ◌∷◌};
ghost use Rattle.midcode.specs.Operation.{listed, reads, base_reads, volatile_reads};
ghost use Rattle.midopt.specs.Marks.{value_to};

use midcode::{Base, OpKind, Operand, Registers, VReg, VolatileBase};

fn no_register() -> Registers
    ensures { listed result ≡ [] }
{
    Registers {
        registers: [VReg(0); 8],
        count: 0,
    }
}

fn one_register(r: VReg) -> Registers
    ensures { listed result ≡ r ∷ [] }
{
    Registers {
        registers: [r; 8],
        count: 1,
    }
}

fn two_registers(r: VReg, s: VReg) -> Registers
    ensures { listed result ≡ r ∷ s ∷ [] }
{
    let mut registers = [s; 8];
    registers[0] = r;
    Registers {
        registers,
        count: 2,
    }
}

/// The registers that an operation reads, in order.
pub fn registers_read(kind: &OpKind) -> Registers
    ensures { listed result ≡ reads kind.now }
{
    match kind {
        OpKind::Copy { from, .. } => one_register(*from),
        OpKind::Unary { from, .. } => one_register(*from),
        OpKind::Binary {
            left,
            right: Operand::Register(right),
            ..
        } => two_registers(*left, *right),
        OpKind::Binary { left, .. } => one_register(*left),
        OpKind::Widen { from, .. } => one_register(*from),
        OpKind::Load {
            base: Base::Register(base),
            ..
        } => one_register(*base),
        OpKind::Store {
            base: Base::Register(base),
            from,
            ..
        } => two_registers(*base, *from),
        OpKind::Store { from, .. } => one_register(*from),
        OpKind::Read {
            base: VolatileBase::Register(base),
            ..
        } => one_register(*base),
        OpKind::Write {
            base: VolatileBase::Register(base),
            from,
            ..
        } => two_registers(*base, *from),
        OpKind::Write { from, .. } => one_register(*from),
        OpKind::WriteRegister { from, .. } => one_register(*from),
        OpKind::WritePad { from, .. } => one_register(*from),
        OpKind::Call { arguments, .. } => *arguments,
        OpKind::Return(Some(value)) => one_register(*value),
        OpKind::Branch { left, .. } => one_register(*left),
        _ => no_register(),
    }
}

/// The register that an operation writes, where it only computes a value.
pub fn register_of_value(kind: &OpKind) -> Option<VReg>
    ensures { result ≡ value_to kind.now }
{
    match kind {
        OpKind::Constant { to, .. } => Some(*to),
        OpKind::Address { to, .. } => Some(*to),
        OpKind::Copy { to, .. } => Some(*to),
        OpKind::Unary { to, .. } => Some(*to),
        OpKind::Binary { to, .. } => Some(*to),
        OpKind::Widen { to, .. } => Some(*to),
        OpKind::Load { to, .. } => Some(*to),
        _ => None,
    }
}
