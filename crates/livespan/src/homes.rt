//! Homes for a function's virtual registers.

ghost use Rattle.std.specs.Prelude.{IfOk};
ghost use Rattle.subreg.specs.Span.{IsSpan};
ghost use Rattle.subreg.specs.Allocation.{IsAllocation};

use crate::spans::intervals;
use midcode::MidFn;
use prunum::Memory;
use std::alloc::Global;
use subreg::{Assign, allocate_spans};

/// Gives each register of a function a home of its width. Those whose spans share a place have no byte and no slot in common, and a
/// slot is given only where no aligned field of the width is free at the start of the span and at least 20 other spans cover it.
pub fn allocate(alloc: Global, f: &MidFn) -> Result<Assign, Memory>
    ensures { IfOk result (λ a. IsAllocation (IsSpan f.now) f.now.registers a.homes a.spills) }
{
    let spans = intervals(alloc, f)?;
    allocate_spans(alloc, f.registers(), &spans)
}
