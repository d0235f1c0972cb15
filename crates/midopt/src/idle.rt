//! Values that nobody reads.

ghost use Rattle.std.specs.Prelude.{◌≡◌, ◌<◌, true, false, length, OnOk};
ghost use Rattle.midcode.specs.Function.{kinds, IsValidFunction};
ghost use Rattle.midopt.specs.Better.{IsBetterFunction};
ghost use Rattle.midopt.specs.Tidy.{HasNoIdle, IsFolded};
ghost use Rattle.midopt.specs.Marks.{marks_of};

use crate::marks::{find_marks, is_unmarked};
use crate::reads::register_of_value;
use midcode::MidFn;
use prunum::Memory;
use std::alloc::Global;

/// Takes out what only computes a value for a register that isn't marked. Answers whether there was such an operation.
fn sweep(f: &mut MidFn, marks: &[bool]) -> bool
    requires marks { marks.now ≡ marks_of (kinds f.old) (length f.old.registers) }
    requires valid { IsValidFunction f.old }
    ensures better { IsBetterFunction f.old f.new }
    ensures folded { IsFolded (kinds f.old) → IsFolded (kinds f.new) }
    ensures some { result ≡ true → length f.new.nodes < length f.old.nodes }
    ensures none { result ≡ false → HasNoIdle (kinds f.new) }
{
    let mut found = false;
    let mut at = f.first();
    for _ in 0..f.op_count() {
        let Some(node) = at else { break };
        at = f.next(node);
        if is_unmarked(marks, register_of_value(&f.get(node).kind)) {
            f.remove(node);
            found = true;
        }
    }
    found
}

/// Takes out the operations that only compute a value which no operation of the function reads. The function then does the same, in
/// every program. Where memory is wanting, some may be left.
pub fn remove_idle(alloc: Global, f: &mut MidFn) -> Result<(), Memory>
    ensures better { IsBetterFunction f.old f.new }
    ensures done { OnOk result (HasNoIdle (kinds f.new)) }

    // No operation can be computed before the run that couldn't be.
    ensures folded { IsFolded (kinds f.old) → IsFolded (kinds f.new) }
{
    loop {
        let marks = find_marks(alloc, f)?;
        if !sweep(f, marks.as_slice()) {
            return Ok(());
        }
    }
}
