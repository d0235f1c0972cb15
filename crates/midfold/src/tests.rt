ghost use Rattle.std.specs.Prelude.{◌≡◌};

use crate::{Tidied, tidy, tidy_function};
use midcode::{BinaryOp, MOST, MidFn, MidProgram, Op, OpKind, Operand, Signature, VReg};
use prunum::{Memory, Width};
use std::alloc::Global;
use std::process::Abort;
use std::test::Fail;

// A function with four registers of these widths, without operations.
fn begun(alloc: Global, width: Width) -> Result<MidFn, Memory> {
    MidFn::new(
        alloc,
        Signature {
            params: [width; 8],
            count: 4,
            result: None,
        },
    )
}

fn op(kind: OpKind) -> Op
    ensures { result.kind ≡ kind }
{
    Op { line: 1, kind }
}

fn push_constant(rt: &impl Abort, f: &mut MidFn, to: u32, value: u32) -> Result<(), Memory> {
    assert!(rt; (to as usize) < f.registers().len());
    assert!(rt; f.op_count() < MOST);
    f.push(op(OpKind::Constant {
        to: VReg(to),
        value,
    }))
}

fn push_copy(rt: &impl Abort, f: &mut MidFn, to: u32, from: u32) -> Result<(), Memory> {
    assert!(rt; (to as usize) < f.registers().len());
    assert!(rt; (from as usize) < f.registers().len());
    assert!(rt; f.op_count() < MOST);
    f.push(op(OpKind::Copy {
        to: VReg(to),
        from: VReg(from),
    }))
}

fn push_sum(rt: &impl Abort, f: &mut MidFn, to: u32, left: u32, right: u32) -> Result<(), Memory> {
    assert!(rt; (to as usize) < f.registers().len());
    assert!(rt; (left as usize) < f.registers().len());
    assert!(rt; f.op_count() < MOST);
    f.push(op(OpKind::Binary {
        op: BinaryOp::Add,
        to: VReg(to),
        left: VReg(left),
        right: Operand::Constant(right),
    }))
}

fn push_return(rt: &impl Abort, f: &mut MidFn, from: u32) -> Result<(), Memory> {
    assert!(rt; (from as usize) < f.registers().len());
    assert!(rt; f.op_count() < MOST);
    f.push(op(OpKind::Return(Some(VReg(from)))))
}

fn push_label(rt: &impl Abort, f: &mut MidFn) -> Result<(), Memory> {
    assert!(rt; (f.labels() as usize) < MOST);
    let label = f.add_label();
    assert!(rt; f.op_count() < MOST);
    f.push(op(OpKind::Label(label)))
}

// Whether there is a sum, and the last constant.
fn found(f: &MidFn) -> (bool, Option<u32>) {
    let mut sum = false;
    let mut number = None;
    let mut at = f.first();
    for _ in 0..f.op_count() {
        let Some(node) = at else { break };
        match f.get(node).kind {
            OpKind::Binary { .. } => sum = true,
            OpKind::Constant { value, .. } => number = Some(value),
            _ => {}
        }
        at = f.next(node);
    }
    (sum, number)
}

#[test]
fn sum_of_a_constant(rt: HostRuntime) -> Result<(), Fail> {
    let mut f = begun(rt.alloc(), Width::B4)?;
    push_constant(&rt, &mut f, 1, 3)?;
    push_copy(&rt, &mut f, 0, 1)?;
    push_copy(&rt, &mut f, 2, 0)?;
    push_sum(&rt, &mut f, 2, 2, 4)?;
    push_return(&rt, &mut f, 2)?;
    tidy_function(rt.alloc(), &mut f)?;
    assert_eq!(rt; found(&f), (false, Some(7)));
    assert_eq!(rt; f.op_count(), 3);
    Ok(())
}

#[test]
fn constant_is_cut(rt: HostRuntime) -> Result<(), Fail> {
    let mut f = begun(rt.alloc(), Width::B1)?;
    push_constant(&rt, &mut f, 0, 0x1ff)?;
    push_sum(&rt, &mut f, 0, 0, 2)?;
    push_return(&rt, &mut f, 0)?;
    tidy_function(rt.alloc(), &mut f)?;
    assert_eq!(rt; found(&f), (false, Some(1)));
    Ok(())
}

#[test]
fn constant_over_a_label(rt: HostRuntime) -> Result<(), Fail> {
    let mut f = begun(rt.alloc(), Width::B4)?;
    push_constant(&rt, &mut f, 0, 3)?;
    push_label(&rt, &mut f)?;
    push_sum(&rt, &mut f, 0, 0, 4)?;
    push_return(&rt, &mut f, 0)?;
    tidy_function(rt.alloc(), &mut f)?;
    assert_eq!(rt; found(&f), (true, Some(3)));
    assert_eq!(rt; f.op_count(), 4);
    Ok(())
}

// Each value is read by the one before it alone, and the first by none.
#[test]
fn long_chain_of_values(rt: HostRuntime) -> Result<(), Fail> {
    let mut f = begun(rt.alloc(), Width::B4)?;
    for _ in 0..20_000 {
        assert!(rt; f.registers().len() < MOST);
        let _ = f.add_register(Width::B4)?;
    }
    for i in 0..20_000 {
        push_copy(&rt, &mut f, i, i + 1)?;
    }
    push_return(&rt, &mut f, 20_001)?;
    assert_eq!(rt; f.op_count(), 20_001);
    tidy_function(rt.alloc(), &mut f)?;
    assert_eq!(rt; f.op_count(), 1);
    Ok(())
}

fn halting(rt: &impl Abort, alloc: Global) -> Result<MidProgram, Memory> {
    let mut f = MidFn::new(
        alloc,
        Signature {
            params: [Width::B4; 8],
            count: 0,
            result: None,
        },
    )?;
    assert!(rt; f.op_count() < MOST);
    f.push(op(OpKind::Halt))?;
    let mut functions = Vec::new(alloc);
    functions.push(f)?;
    Ok(MidProgram::new(functions, Vec::new(alloc), 0, 0))
}

#[test]
fn program_is_tidied(rt: HostRuntime) -> Result<(), Fail> {
    let Tidied { program, done } = tidy(rt.alloc(), halting(&rt, rt.alloc())?);
    done?;
    assert_eq!(rt; program.functions().len(), 1);
    Ok(())
}
