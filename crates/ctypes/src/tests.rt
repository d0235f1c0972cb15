ghost use Rattle.std.specs.Prelude.{◌≤◌, IfOk};

use super::*;
use cprogram::{Conversion, Integer, PointerKind, Scalar};
use csyn::Sign;
use prunum::Width;
use std::alloc::{AllocError, Global};
use std::test::Fail;

const CONST: Qualifiers = Qualifiers {
    is_const: true,
    is_volatile: false,
};

const VOLATILE: Qualifiers = Qualifiers {
    is_const: false,
    is_volatile: true,
};

fn ctype(
    alloc: Global,
    kind: BaseKind,
    qualifiers: Qualifiers,
    steps: &[Step],
) -> Result<CType, AllocError> {
    let steps = Vec::from_slice(alloc, steps)?;
    Ok(CType::new(Base { kind, qualifiers }, steps))
}

// `char *` and `const char *`, `unsigned char *`, `volatile int *`, `short`
#[test]
fn pointers_convert(rt: HostRuntime) -> Result<(), Fail> {
    let alloc = rt.alloc();
    let pointer = [Step::Pointer(Qualifiers::NONE)];
    let chars = ctype(alloc, BaseKind::Char, Qualifiers::NONE, &pointer)?;
    let constant = ctype(alloc, BaseKind::Char, CONST, &pointer)?;
    let bytes = ctype(alloc, BaseKind::UnsignedChar, Qualifiers::NONE, &pointer)?;
    let port = ctype(alloc, BaseKind::Int, VOLATILE, &pointer)?;
    let short = ctype(alloc, BaseKind::Short, Qualifiers::NONE, &[])?;
    assert_eq!(rt; chars.implied(false, &constant), Some(Conversion::Same));
    assert_eq!(rt; constant.implied(false, &chars), None);
    assert_eq!(rt; chars.implied(false, &bytes), None);
    assert_eq!(rt; short.implied(true, &chars), Some(Conversion::ToNull));
    assert_eq!(rt; short.implied(false, &port), None);
    assert!(rt; short.cast(false, &port).is_some());
    assert_eq!(rt; short.cast(false, &chars), None);
    assert_eq!(rt;
        port.cast(false, &short),
        Some(Conversion::FromAddress(Width::B2))
    );
    assert_eq!(rt; port.scalar(), Some(Scalar::Pointer(PointerKind::Volatile)));
    Ok(())
}

// `volatile int a[2][3]` becomes a volatile pointer to a row of three
#[test]
fn arrays_become_pointers(rt: HostRuntime) -> Result<(), Fail> {
    let mut array = ctype(
        rt.alloc(),
        BaseKind::Int,
        VOLATILE,
        &[Step::Array(2), Step::Array(3)],
    )?;
    assert_eq!(rt; array.scalar(), None);
    array.decay();
    assert_eq!(rt;
        array.scalar(),
        Some(Scalar::Pointer(PointerKind::Volatile))
    );
    assert_eq!(rt; array.steps().len(), 2);
    Ok(())
}

#[test]
fn numbers_have_signs(rt: HostRuntime) {
    assert_eq!(rt; constant_sign(0x7fff_ffff, false), Sign::Signed);
    assert_eq!(rt; constant_sign(0x8000_0000, false), Sign::Unsigned);
    assert_eq!(rt; constant_sign(1, true), Sign::Unsigned);
    assert_eq!(rt; rounded(5, 4), 8);
    assert_eq!(rt; rounded(8, 4), 8);
}

fn scalar(alloc: Global, width: Width) -> Result<Extent, AllocError>
    ensures { IfOk result (λ e. e.bytes ≤ 4) }
{
    let sign = Sign::Signed;
    Extent::of_scalar(alloc, Scalar::Integer(Integer { width, sign }))
}

// `struct { char c; int i; short s; }`
#[test]
fn structs_are_padded(rt: HostRuntime) -> Result<(), Fail> {
    let alloc = rt.alloc();
    let all = Extent::opened(alloc).joined(&scalar(alloc, Width::B1)?)?;
    assert_eq!(rt; all.bytes(), 1);
    let all = all.joined(&scalar(alloc, Width::B4)?)?;
    assert_eq!(rt; all.bytes(), 8);
    let all = all.joined(&scalar(alloc, Width::B2)?)?;
    assert_eq!(rt; all.bytes(), 10);
    assert_eq!(rt; all.leaves().len(), 3);
    assert_eq!(rt; all.leaves()[1].offset, 4);
    assert_eq!(rt; all.leaves()[2].offset, 8);
    let all = all.closed();
    assert_eq!(rt; all.bytes(), 12);
    assert_eq!(rt; all.widest(), Width::B4);
    Ok(())
}
