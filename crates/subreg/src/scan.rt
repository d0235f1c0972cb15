//! Homes for spans, in the order of their starts.

ghost use Rattle.std.specs.Prelude.{◌≡◌, ◌+◌, ◌<◌, ◌≤◌, length, IfOk};
ghost use Rattle.subreg.specs.Allocation.{IsAllocation};
ghost use Rattle.subreg.specs.Bytes.{slots_with};
ghost use Rattle.subreg.specs.Listed.{Listed, AreSpans};
ghost use Rattle.subreg.specs.Scan.{AreFirstHomes};

use crate::assign::Assign;
use crate::bytes::{FIRST, give_home, none_taken};
use crate::home::{Home, Interval};
use callconv::field_at;
use prunum::{Memory, Width};
use std::alloc::Global;

/// A home in R5 for each register: that of those that have no span.
fn first_homes(alloc: Global, registers: &[Width]) -> Result<Vec<Home>, Memory>
    ensures { IfOk result (λ homes. AreFirstHomes registers.now homes.items) }
{
    let mut homes = Vec::with_capacity(alloc, registers.len())?;
    for width in registers {
        homes.push(Home::Field(field_at(*width, FIRST as u8)))?;
    }
    Ok(homes)
}

fn slots_with(home: Home, slots: u32) -> u32
    requires { slots < 1048577 }
    ensures { result ≡ slots_with home slots }
{
    match home {
        Home::Field(_) => slots,
        Home::Slot(_) => slots + 1,
    }
}

/// Gives each register a home of its width. Those whose spans share a place have no byte and no slot in common, and a slot is given
/// only where no aligned field of the width is free at the start of the span. `registers` has the widths by number; `spans` has at
/// most one span for each, in the order of their starts. A register without a span gets a field too, which others may take.
pub fn allocate_spans(
    alloc: Global,
    registers: &[Width],
    spans: &[Interval],
) -> Result<Assign, Memory>
    requires { AreSpans registers.now spans.now }
    ensures { IfOk result (λ a. IsAllocation (Listed spans.now) registers.now a.homes a.spills) }
{
    let mut homes = first_homes(alloc, registers)?;
    let mut free_from = none_taken();
    let mut slots = 0;
    for span in spans {
        let number = span.vreg.0 as usize;
        let home = give_home(&mut free_from, registers[number], *span, slots);
        homes[number] = home;
        slots = slots_with(home, slots);
    }
    Ok(Assign::new(homes, slots))
}
