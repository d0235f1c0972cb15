ghost use Rattle.std.specs.Prelude.{◌≡◌, ◌+◌, OnOk};

use crate::{allocate, intervals};
use isa::{Field, Part};
use midcode::{Label, MOST, MidFn, Op, OpKind, Signature, Test, VReg};
use prunum::{Memory, Width};
use std::alloc::Global;
use std::process::Abort;
use std::test::Fail;
use subreg::Home;

/// A function of four bytes, or of none.
fn begun(alloc: Global, count: u8) -> Result<MidFn, Memory> {
    MidFn::new(
        alloc,
        Signature {
            params: [Width::B4; 8],
            count: count.min(8),
            result: None,
        },
    )
}

fn register(rt: &impl Abort, f: &mut MidFn, width: Width) -> Result<VReg, Memory> {
    assert!(rt; f.registers().len() < MOST);
    f.add_register(width)
}

fn write(rt: &impl Abort, f: &mut MidFn, to: VReg) -> Result<(), Memory> {
    assert!(rt; (to.0 as usize) < f.registers().len());
    assert!(rt; f.op_count() < MOST);
    f.push(Op {
        line: 1,
        kind: OpKind::Constant { to, value: 1 },
    })
}

fn copy(rt: &impl Abort, f: &mut MidFn, to: VReg, from: VReg) -> Result<(), Memory> {
    assert!(rt; (to.0 as usize) < f.registers().len());
    assert!(rt; (from.0 as usize) < f.registers().len());
    assert!(rt; f.op_count() < MOST);
    f.push(Op {
        line: 1,
        kind: OpKind::Copy { to, from },
    })
}

fn begin_loop(rt: &impl Abort, f: &mut MidFn) -> Result<Label, Memory> {
    assert!(rt; (f.labels() as usize) < MOST);
    assert!(rt; f.op_count() < MOST);
    let label = f.add_label();
    f.push(Op {
        line: 1,
        kind: OpKind::Label(label),
    })?;
    Ok(label)
}

fn end_loop(rt: &impl Abort, f: &mut MidFn, left: VReg, to: Label) -> Result<(), Memory> {
    assert!(rt; (left.0 as usize) < f.registers().len());
    assert!(rt; to.0 < f.labels());
    assert!(rt; f.op_count() < MOST);
    f.push(Op {
        line: 1,
        kind: OpKind::Branch {
            left,
            test: Test::NotEqual,
            right: 0,
            to,
            turns: None,
        },
    })
}

// The inner loop stands at places 3 to 6, the outer one at 1 to 8.
#[test]
fn spans_over_nested_loops(rt: HostRuntime) -> Result<(), Fail> {
    let mut f = begun(rt.alloc(), 1)?;
    let total = register(&rt, &mut f, Width::B4)?;
    let early = register(&rt, &mut f, Width::B4)?;
    let inner = register(&rt, &mut f, Width::B4)?;
    write(&rt, &mut f, total)?;
    let outer_loop = begin_loop(&rt, &mut f)?;
    copy(&rt, &mut f, total, early)?;
    let inner_loop = begin_loop(&rt, &mut f)?;
    write(&rt, &mut f, inner)?;
    copy(&rt, &mut f, inner, inner)?;
    end_loop(&rt, &mut f, total, inner_loop)?;
    write(&rt, &mut f, early)?;
    end_loop(&rt, &mut f, VReg(0), outer_loop)?;
    let spans = intervals(rt.alloc(), &f)?;
    let expected = [(0, 0, 8), (1, 0, 8), (2, 1, 8), (3, 4, 5)];
    assert_eq!(rt; spans.len(), 4);
    for (span, (vreg, from, to)) in spans.iter().zip(expected.iter()) {
        assert_eq!(rt; (span.vreg.0, span.from, span.to), (*vreg, *from, *to));
    }
    Ok(())
}

// A parameter is needed from the first place to its last mention.
#[test]
fn a_parameter_used_late(rt: HostRuntime) -> Result<(), Fail> {
    let mut f = begun(rt.alloc(), 1)?;
    let to = register(&rt, &mut f, Width::B4)?;
    write(&rt, &mut f, to)?;
    write(&rt, &mut f, to)?;
    copy(&rt, &mut f, to, VReg(0))?;
    let spans = intervals(rt.alloc(), &f)?;
    assert_eq!(rt; spans.len(), 2);
    assert_eq!(rt; (spans[0].vreg.0, spans[0].from, spans[0].to), (0, 0, 2));
    assert_eq!(rt; (spans[1].vreg.0, spans[1].from, spans[1].to), (1, 0, 2));
    Ok(())
}

/// How many slots so many bytes take that are needed at once.
fn slots(rt: &impl Abort, alloc: Global, bytes: u32) -> Result<u32, Memory> {
    let mut f = begun(alloc, 0)?;
    for _ in 0..bytes {
        let to = register(rt, &mut f, Width::B1)?;
        write(rt, &mut f, to)?;
    }
    for n in 0..bytes {
        copy(rt, &mut f, VReg(n), VReg(n))?;
    }
    Ok(allocate(alloc, &f)?.spills())
}

#[test]
fn bytes_that_are_needed_at_once(rt: HostRuntime) -> Result<(), Fail> {
    assert_eq!(rt; slots(&rt, rt.alloc(), 84)?, 0);
    assert_eq!(rt; slots(&rt, rt.alloc(), 85)?, 1);
    Ok(())
}

#[test]
fn ten_thousand_operations(rt: HostRuntime) -> Result<(), Fail> {
    let mut f = begun(rt.alloc(), 1)?;
    let head = begin_loop(&rt, &mut f)?;
    for _ in 0..4999 {
        let to = register(&rt, &mut f, Width::B4)?;
        write(&rt, &mut f, to)?;
        copy(&rt, &mut f, VReg(0), to)?;
    }
    end_loop(&rt, &mut f, VReg(0), head)?;
    assert_eq!(rt; f.op_count(), 10000);
    assert_eq!(rt; intervals(rt.alloc(), &f)?.len(), 5000);
    assert_eq!(rt; allocate(rt.alloc(), &f)?.spills(), 0);
    Ok(())
}
