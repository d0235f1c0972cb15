ghost use Rattle.std.specs.Prelude.{◌≡◌, ◌<◌, length, IfOk};

use crate::assign::Assign;
use crate::home::{Home, Interval};
use crate::scan::allocate_spans;
use isa::{Field, Part};
use midcode::VReg;
use prunum::{Memory, Width};
use std::alloc::Global;
use std::test::Fail;

/// Homes for registers of these widths, all needed from place 0 to place 9.
fn together(alloc: Global, widths: &[Width]) -> Result<Assign, Memory>
    requires { length widths.now < 100 }
    ensures { IfOk result (λ a. length a.homes ≡ length widths.now) }
{
    let mut spans = Vec::new(alloc);
    for n in 0..widths.len() {
        spans.push(Interval {
            vreg: VReg(n as u32),
            from: 0,
            to: 9,
        })?;
    }
    allocate_spans(alloc, widths, &spans)
}

fn field_of(home: Home) -> Option<Field> {
    match home {
        Home::Field(field) => Some(field),
        Home::Slot(_) => None,
    }
}

#[test]
fn a_slot_where_the_registers_are_full(rt: HostRuntime) -> Result<(), Fail> {
    assert_eq!(rt; together(rt.alloc(), &[Width::B1; 84])?.spills(), 0);
    assert_eq!(rt; together(rt.alloc(), &[Width::B1; 85])?.spills(), 1);
    assert_eq!(rt; together(rt.alloc(), &[Width::B4; 23])?.spills(), 2);
    Ok(())
}

#[test]
fn widths_share_a_register(rt: HostRuntime) -> Result<(), Fail> {
    let assign = together(rt.alloc(), &[Width::B1, Width::B2, Width::B1, Width::B4])?;
    let expected = [(5, Part::B0), (5, Part::W2), (5, Part::B1), (6, Part::All)];
    for (n, (reg, part)) in expected.iter().enumerate() {
        assert_eq!(rt;
            field_of(assign.place(VReg(n as u32))),
            Some(Field {
                reg: *reg,
                part: *part
            })
        );
    }
    Ok(())
}
