ghost use Rattle.std.specs.Prelude.{◌<◌, length};

use crate::remove_idle;
use midcode::{MOST, MidFn, Op, OpKind, Signature, VReg};
use prunum::{Memory, Width};
use std::alloc::Global;
use std::process::Abort;
use std::test::Fail;

// A function that takes a number, with no operations.
fn begun(alloc: Global) -> Result<MidFn, Memory> {
    MidFn::new(
        alloc,
        Signature {
            params: [Width::B4; 8],
            count: 1,
            result: None,
        },
    )
}

fn push_constant(f: &mut MidFn) -> Result<(), Memory>
    requires register { 0 < length f.old.registers }
    requires few { length f.old.nodes < MOST }
{
    f.push(Op {
        line: 1,
        kind: OpKind::Constant {
            to: VReg(0),
            value: 3,
        },
    })
}

fn push_halt(f: &mut MidFn) -> Result<(), Memory>
    requires { length f.old.nodes < MOST }
{
    f.push(Op {
        line: 2,
        kind: OpKind::Halt,
    })
}

#[test]
fn idle_value_goes(rt: HostRuntime) -> Result<(), Fail> {
    let mut f = begun(rt.alloc())?;
    assert!(rt; !f.registers().is_empty());
    assert!(rt; f.op_count() < MOST);
    push_constant(&mut f)?;
    assert!(rt; f.op_count() < MOST);
    push_halt(&mut f)?;
    assert_eq!(rt; f.op_count(), 2);
    remove_idle(rt.alloc(), &mut f)?;
    assert_eq!(rt; f.op_count(), 1);
    Ok(())
}
