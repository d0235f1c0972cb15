//! Marks on the registers that are read.

ghost use Rattle.std.specs.Prelude.{◌≡◌, [], ◌∷◌, length, IfOk};
ghost use Rattle.midcode.specs.Operation.{listed};
ghost use Rattle.midcode.specs.Function.{kinds, IsValidFunction};
ghost use Rattle.midopt.specs.Marks.{marked, marks_of, is_unmarked};

use crate::reads::registers_read;
use midcode::{MidFn, Registers, VReg};
use prunum::Memory;
use std::alloc::Global;

fn mark_one(marks: &mut [bool], r: VReg)
    ensures { marks.new ≡ marked (r ∷ []) marks.old }
{
    let index = r.0 as usize;
    if index < marks.len() {
        marks[index] = true;
    }
}

fn mark_all(marks: &mut [bool], registers: &Registers)
    ensures { marks.new ≡ marked (listed registers.now) marks.old }
{
    for r in &registers.registers[..registers.count as usize] {
        mark_one(marks, *r);
    }
}

/// Marks the registers that the function's operations read.
pub fn find_marks(alloc: Global, f: &MidFn) -> Result<Vec<bool>, Memory>
    ensures marks { IfOk result (λ v. v.items ≡ marks_of (kinds f.now) (length f.now.registers)) }

    // The function is valid.
    ensures valid { IsValidFunction f.now }
{
    let count = f.ops().count();
    let mut marks = vec![in alloc; false; f.registers().len()]?;
    let mut at = f.first();
    for _ in 0..count {
        let Some(node) = at else { break };
        mark_all(marks.as_mut_slice(), &registers_read(&f.get(node).kind));
        at = f.next(node);
    }
    Ok(marks)
}

/// There is a register, and it isn't marked.
pub fn is_unmarked(marks: &[bool], r: Option<VReg>) -> bool
    ensures { result ≡ is_unmarked marks.now r }
{
    match r {
        None => false,
        Some(r) => marks.get(r.0 as usize) == Some(&false),
    }
}
