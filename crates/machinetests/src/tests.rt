use crate::{begun_again, in_pieces};
use corestep::Table;
use hostscript::{Script, read_script};
use isa::{Image, is_image};
use prunum::Memory;
use prutrace::print_trace;
use std::alloc::Global;
use std::process::Abort;
use std::test::Fail;
use twocore::{Machine, Outcome};

const HALT: u32 = 0x2a00_0000;

const UPDATE: &[u32] = &[
    0x9100_1c62, // LBCO R2, C28, 0, 4
    0x0101_e2e2, // ADD R2, R2, 1
    0x8100_1c62, // SBCO R2, C28, 0, 4
    HALT,
];

fn image<R: AllocGlobal + Abort>(rt: &R, words: &[u32]) -> Result<Image, Fail> {
    let alloc = rt.alloc();
    let words = words.to_vec(alloc)?;
    let init = Vec::new(alloc);
    let notes = Vec::new(alloc);
    assert!(rt; is_image(words.as_slice(), 0x10, init.as_slice(), 0, notes.as_slice()));
    Ok(Image::new(words, 0x10, init, 0, notes))
}

fn script<R: AllocGlobal + Abort>(rt: &R, text: &[u8]) -> Result<Script, Fail> {
    assert!(rt; text.len() < 1000);
    Ok(read_script(rt.alloc(), text)?)
}

fn is_shown<R: AllocGlobal + Abort>(rt: &R, shown: &Outcome, trace: &[u8]) -> Result<(), Fail> {
    let text = print_trace(rt.alloc(), shown.trace0.as_slice(), shown.trace1.as_slice())?;
    assert_eq!(rt; text.as_slice(), trace);
    Ok(())
}

// These words of both cores show these traces in 60 cycles, done in two pieces.
fn shows<R: AllocGlobal + Abort>(
    rt: &R,
    table: Table,
    words: [&[u32]; 2],
    text: &[u8],
    first: u32,
    trace: &[u8],
) -> Result<(), Fail> {
    assert!(rt; first <= 60);
    let script = script(rt, text)?;
    let zero = image(rt, words[0])?;
    let one = image(rt, words[1])?;
    let shown = in_pieces(rt.alloc(), table, zero, one, script, first, 60)?;
    is_shown(rt, &shown, trace)
}

// One of two updates is lost, unless the second core waits. A run in pieces is a run at once.
#[test]
fn updates(rt: HostRuntime) -> Result<(), Fail> {
    for (table, script, trace) in [
        (
            Table::One,
            b"".as_slice(),
            b"core 0\n2 R 00010000 4 00000000\n5 W 00010000 4 00000001\n6 H\n\
              core 1\n2 R 00010000 4 00000000\n5 W 00010000 4 00000001\n6 H\n"
                .as_slice(),
        ),
        (
            Table::One,
            b"arb 1 10",
            b"core 0\n2 R 00010000 4 00000000\n5 W 00010000 4 00000001\n6 H\n\
              core 1\n12 R 00010000 4 00000001\n15 W 00010000 4 00000002\n16 H\n",
        ),
        (
            Table::Two,
            b"",
            b"core 0\n3 R 00010000 4 00000000\n7 W 00010000 4 00000001\n8 H\n\
              core 1\n3 R 00010000 4 00000000\n7 W 00010000 4 00000001\n8 H\n",
        ),
    ] {
        for first in [0, 1, 2, 5, 6, 13, 60] {
            shows(&rt, table, [UPDATE, UPDATE], script, first, trace)?;
        }
    }
    Ok(())
}

// A script's acts: a start, pins, a poke and an event that shows in R31 once both cores have set up the controller.
#[test]
fn acts(rt: HostRuntime) -> Result<(), Fail> {
    let zero = [
        0x0101_e2e2, // ADD R2, R2, 1
        0x8110_0062, // SBCO R2, C0, 0x10, 4
        0x2400_14e2, // LDI R2, 20
        0x8128_0062, // SBCO R2, C0, 0x28, 4
        0x2400_00e2, // LDI R2, 0
        0x8134_0062, // SBCO R2, C0, 0x34, 4
        HALT,
    ];
    let one = [
        0x0100_ffe4, // ADD R4, R31, 0
        0x241e_00e3, // LDI R3, 0x1e00
        0xf100_0362, // LBBO R2, R3, 0, 4
        HALT,
    ];
    shows(
        &rt,
        Table::One,
        [&zero, &one],
        b"3 pins 1 beef\n10 event 20\n11 start 1\n12 poke 00003e00 4 0000002a",
        7,
        b"core 0\n2 W 00020010 4 00000001\n5 W 00020028 4 00000014\n8 W 00020034 4 00000000\n9 H\n\
          core 1\n11 R R31 4 4000beef\n15 R 00001e00 4 0000002a\n16 H\n",
    )
}

fn again<R: AllocGlobal + Abort>(rt: &R, first: u32) -> Result<(), Fail> {
    assert!(rt; first <= 60);
    let script = script(rt, b"")?;
    let zero = image(rt, UPDATE)?;
    let one = image(rt, &[])?;
    let shown = begun_again(rt.alloc(), Table::One, zero, one, script, first, 60)?;
    is_shown(
        rt,
        &shown,
        b"core 0\n2 R 00010000 4 00000000\n5 W 00010000 4 00000001\n6 H\ncore 1\n",
    )
}

// After a restart at any time all is as before.
#[test]
fn restarts(rt: HostRuntime) -> Result<(), Fail> {
    for first in [0, 4, 5, 60] {
        again(&rt, first)?;
    }
    Ok(())
}

/// How many cycles are done and how many events core 0 has shown after three cycles, one by one.
fn one_by_one(
    alloc: Global,
    zero: Image,
    one: Image,
    script: Script,
) -> Result<(u32, usize), Memory> {
    let mut machine = Machine::new(alloc, Table::One, zero, one, script)?;
    machine.reserve(3)?;
    machine.cycle();
    machine.cycle();
    machine.cycle();
    Ok((machine.done(), machine.trace(0).len()))
}

#[test]
fn cycles(rt: HostRuntime) -> Result<(), Fail> {
    let script = script(&rt, b"")?;
    let zero = image(&rt, UPDATE)?;
    let one = image(&rt, UPDATE)?;
    let (done, events) = one_by_one(rt.alloc(), zero, one, script)?;
    assert_eq!(rt; done, 3);
    assert_eq!(rt; events, 1);
    Ok(())
}
