use crate::{Machine, Outcome, View};
use corestep::Table;
use hostscript::{Script, read_script};
use isa::{Image, is_image};
use prunum::{Memory, Width};
use prutrace::{Event, Place, Stamped};
use std::alloc::Global;
use std::process::Abort;
use std::test::Fail;

// words by hand
const LBCO_SHARED: u32 = 0x9100_1c62; // LBCO R2, C28, 0, 4

const SBCO_SHARED: u32 = 0x8100_1c62; // SBCO R2, C28, 0, 4

const ADD_ONE: u32 = 0x0101_e2e2; // ADD R2, R2, 1

const LOAD: u32 = 0xf100_0362; // LBBO R2, R3, 0, 4

const HALT: u32 = 0x2a00_0000;

const OWN_WINDOW: u32 = 0x241e_00e3; // LDI R3, 0x1e00

const UPDATE: &[u32] = &[LBCO_SHARED, ADD_ONE, SBCO_SHARED, HALT];

fn image<R: AllocGlobal + Abort>(rt: &R, words: &[u32]) -> Result<Image, Fail> {
    let alloc = rt.alloc();
    let words = words.to_vec(alloc)?;
    let init = Vec::new(alloc);
    let notes = Vec::new(alloc);
    assert!(rt; is_image(words.as_slice(), 0x10, init.as_slice(), 0, notes.as_slice()));
    Ok(Image::new(words, 0x10, init, 0, notes))
}

/// What a machine shows in 20 cycles.
fn shown(
    alloc: Global,
    table: Table,
    zero: Image,
    one: Image,
    script: Script,
) -> Result<Outcome, Memory> {
    let mut machine = Machine::new(alloc, table, zero, one, script)?;
    machine.run(20)?;
    Ok(machine.outcome())
}

/// The same of these words under a script.
fn run<R: AllocGlobal + Abort>(
    rt: &R,
    table: Table,
    zero: &[u32],
    one: &[u32],
    text: &[u8],
) -> Result<Outcome, Fail> {
    assert!(rt; text.len() < 1000);
    let script = read_script(rt.alloc(), text)?;
    let zero = image(rt, zero)?;
    let one = image(rt, one)?;
    Ok(shown(rt.alloc(), table, zero, one, script)?)
}

fn read(place: Place, value: u32, cycle: u32) -> Stamped {
    let width = Width::B4;
    Stamped {
        event: Event::Read {
            place,
            width,
            value,
        },
        cycle,
    }
}

fn write(place: Place, value: u32, cycle: u32) -> Stamped {
    let width = Width::B4;
    Stamped {
        event: Event::Write {
            place,
            width,
            value,
        },
        cycle,
    }
}

fn halted(cycle: u32) -> Stamped {
    Stamped {
        event: Event::Halted,
        cycle,
    }
}

const SHARED: Place = Place::Addr(0x1_0000);

// The stamps follow from the cycle tables: a load of four bytes takes 3 cycles, a store 2.
fn both_show<R: AllocGlobal + Abort>(rt: &R, text: &[u8], one: [Stamped; 3]) -> Result<(), Fail> {
    let out = run(rt, Table::One, UPDATE, UPDATE, text)?;
    let zero = [read(SHARED, 0, 2), write(SHARED, 1, 5), halted(6)];
    assert_eq!(rt; out.trace0.as_slice(), zero.as_slice());
    assert_eq!(rt; out.trace1.as_slice(), one.as_slice());
    Ok(())
}

// One of two updates is lost, unless the second core waits.
#[test]
fn both_cores(rt: HostRuntime) -> Result<(), Fail> {
    let lost = [read(SHARED, 0, 2), write(SHARED, 1, 5), halted(6)];
    both_show(&rt, b"", lost)?;
    let behind = [read(SHARED, 1, 12), write(SHARED, 2, 15), halted(16)];
    both_show(&rt, b"arb 1 10", behind)
}

/// What a debugger reads behind two cycles: the room, a byte of core 0's window as both cores see it, and core 0.
fn readings(
    alloc: Global,
    zero: Image,
    one: Image,
    script: Script,
) -> Result<(usize, u8, u8, View), Memory> {
    let mut machine = Machine::new(alloc, Table::One, zero, one, script)?;
    machine.reserve(3)?;
    let room = machine.room();
    machine.run(2)?;
    let own = machine.byte(0, 0x1e00);
    let other = machine.byte(1, 0x3e00);
    Ok((room, own, other, machine.view(0)))
}

#[test]
fn readers(rt: HostRuntime) -> Result<(), Fail> {
    let script = read_script(rt.alloc(), b"0 poke 00001e00 4 0000002a")?;
    let zero = image(&rt, &[OWN_WINDOW, LOAD, HALT])?;
    let one = image(&rt, &[])?;
    let (room, own, other, view) = readings(rt.alloc(), zero, one, script)?;
    assert!(rt; 108 <= room);
    assert_eq!(rt; own, 42);
    assert_eq!(rt; other, 42);
    assert_eq!(rt; view.pc, 1);
    assert!(rt; !view.between);
    assert_eq!(rt; view.regs[3], 0x1e00);
    Ok(())
}
