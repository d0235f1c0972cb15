//! The first and the last mention of each register.

ghost use Rattle.std.specs.Prelude.{◌≡◌, ◌<◌, ◌≤◌, ◌+◌, ℕ, List, length, Some, IfOk};
ghost use Rattle.midcode.specs.declared.register.VReg.{VReg};
ghost use Rattle.midcode.specs.declared.op.OpKind.{OpKind};
ghost use Rattle.livespan.specs.Live.{AreHulls, AreNamed, Known, up_to, with_mention, with_written};

use crate::area::Area;
use crate::operations::{kind_at, reads, writes};
use midcode::{OpKind, VReg};
use prunum::Memory;
use std::alloc::Global;

fn up_to(hull: Option<Area>, place: usize) -> Area
    ensures { result ≡ up_to hull place }
{
    match hull {
        None => Area {
            first: place,
            last: place,
        },
        Some(area) => Area {
            first: area.first,
            last: place,
        },
    }
}

/// One more mention, at a place that isn't before the others.
fn mention(hulls: &mut [Option<Area>], v: VReg, place: usize)
    requires { v.0 < length hulls.old }
    ensures { hulls.new ≡ with_mention hulls.old v place }
{
    let number = v.0 as usize;
    hulls[number] = Some(up_to(hulls[number], place));
}

fn mention_written(hulls: &mut [Option<Area>], written: Option<VReg>, place: usize)
    requires { (v : VReg) → written ≡ Some v → v.0 < length hulls.old }
    ensures { hulls.new ≡ with_written hulls.old written place }
{
    match written {
        None => {}
        Some(v) => mention(hulls, v, place),
    }
}

/// The mentions of an operation, behind those of the operations before it.
fn mention_operation(hulls: &mut [Option<Area>], kinds: &[OpKind], place: usize)
    requires within { place < length kinds.now }
    requires named { AreNamed kinds.now (length hulls.old) }
    ensures len { length hulls.new ≡ length hulls.old }
    ensures hulls { (params : ℕ) → AreHulls (Known kinds.now params place) hulls.old
        → AreHulls (Known kinds.now params (place + 1)) hulls.new }
{
    let kind = kind_at(kinds, place);
    let read = reads(&kind);
    for n in 0..read.count as usize {
        mention(hulls, read.registers[n], place);
    }
    mention_written(hulls, writes(&kind), place);
}

/// The hulls of the first registers, the parameters, before any operation.
fn mention_parameters(
    alloc: Global,
    registers: usize,
    params: u8,
) -> Result<Vec<Option<Area>>, Memory>
    requires { params ≤ registers }
    ensures len { IfOk result (λ hulls. length hulls.items ≡ registers) }
    ensures hulls { IfOk result (λ hulls. (ks : List OpKind) → AreHulls (Known ks params 0) hulls.items) }
{
    let mut hulls = vec![in alloc; None; registers]?;
    for number in 0..params {
        mention(&mut hulls, VReg(number as u32), 0);
    }
    Ok(hulls)
}

/// The places from the first to the last mention of each register, by its number.
pub fn mentions(
    alloc: Global,
    kinds: &[OpKind],
    registers: usize,
    params: u8,
) -> Result<Vec<Option<Area>>, Memory>
    requires params { params ≤ registers }
    requires named { AreNamed kinds.now registers }
    ensures len { IfOk result (λ hulls. length hulls.items ≡ registers) }
    ensures hulls { IfOk result (λ hulls. AreHulls (Known kinds.now params (length kinds.now)) hulls.items) }
{
    let mut hulls = mention_parameters(alloc, registers, params)?;
    for place in 0..kinds.len() {
        mention_operation(&mut hulls, kinds, place);
    }
    Ok(hulls)
}
