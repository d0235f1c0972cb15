ghost use Rattle.std.specs.Prelude.{◌≡◌};
ghost use Rattle.midcode.specs.declared.op.OpKind.TheVariants.{Halt};

use crate::{Label, MOST, MidFn, Op, OpKind, Signature, VReg};
use prunum::{Memory, Width};
use std::alloc::Global;
use std::process::Abort;
use std::test::Fail;

fn halt() -> Op
    ensures { result.kind ≡ Halt }
{
    Op {
        line: 7,
        kind: OpKind::Halt,
    }
}

// A function that takes a byte and then four bytes, with no operations.
fn begun(alloc: Global) -> Result<MidFn, Memory> {
    let mut params = [Width::B4; 8];
    params[0] = Width::B1;
    MidFn::new(
        alloc,
        Signature {
            params,
            count: 2,
            result: None,
        },
    )
}

fn push(rt: &impl Abort, f: &mut MidFn) -> Result<(), Memory> {
    assert!(rt; f.op_count() < MOST);
    f.push(halt())
}

#[test]
fn grows(rt: HostRuntime) -> Result<(), Fail> {
    let mut f = begun(rt.alloc())?;
    assert_eq!(rt; f.registers().len(), 2);
    assert_eq!(rt; f.add_register(Width::B2)?, VReg(2));
    assert_eq!(rt; f.registers().len(), 3);
    assert_eq!(rt; f.labels(), 0);
    assert_eq!(rt; f.add_label(), Label(0));
    assert_eq!(rt; f.labels(), 1);
    assert_eq!(rt; f.signature().count, 2);
    assert!(rt; f.first().is_none());
    push(&rt, &mut f)?;
    push(&rt, &mut f)?;
    assert_eq!(rt; f.op_count(), 2);
    assert_eq!(rt; f.ops().count(), 2);
    let node = f.first().expect(&rt, "first");
    assert_eq!(rt; f.get(node).line, 7);
    let next = f.next(node).expect(&rt, "second");
    assert!(rt; f.next(next).is_none());
    Ok(())
}
