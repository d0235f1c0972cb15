use crate::{Helper, cycles, divs, divu, mul, rems, remu};
use corestep::{Core, Input, StepOut, Stop, step};
use isa::{
    BranchOffset, Field, Image, Inst, Item, LoopBody, Note, NoteKind, Part, Target, encode,
    is_image,
};
use prunum::{quot_s, quot_u, rem_s, rem_u};
use std::process::Abort;
use std::test::Fail;

// Operands: the ends of both readings, and some between.
const ENDS: [u32; 10] = [
    0,
    1,
    2,
    7,
    0x7fff_ffff,
    0x8000_0000,
    0x8000_0001,
    0xffff_fff9,
    0xffff_fffe,
    0xffff_ffff,
];

/// The number of words before a label, or of all where there is none such.
fn place_of(items: &[Item], label: u32) -> u16 {
    let mut place = 0u16;
    for item in items {
        match *item {
            Item::Label(l) if l == label => return place,
            Item::Whole(_) | Item::Aimed { .. } => place = place.wrapping_add(1),
            _ => {}
        }
    }
    place
}

/// The instruction at a place, with the distance to its label.
fn aimed(items: &[Item], at: u16, inst: Inst, target: Target) -> Inst {
    let Target::Label(l) = target else {
        return inst;
    };
    let distance = place_of(items, l).wrapping_sub(at);
    if distance < 2 || distance > 100 {
        return inst;
    }
    match inst {
        Inst::Loop { body } => Inst::Loop {
            body: LoopBody {
                count: body.count,
                length: (distance - 1) as u8,
            },
        },
        Inst::Branch {
            condition,
            a,
            b,
            ..
        } => Inst::Branch {
            condition,
            offset: BranchOffset {
                words: distance as i16,
            },
            a,
            b,
        },
        Inst::Qba { .. } => Inst::Qba {
            offset: BranchOffset {
                words: distance as i16,
            },
        },
        _ => inst,
    }
}

fn half(reg: u8, part: Part) -> Field {
    Field {
        reg: reg % 32,
        part,
    }
}

/// The words of a program that puts the operands into R14 and R15 and the last word's number into R3.w2, does the body, and halts.
fn words_of<R: AllocGlobal + Abort>(
    rt: &R,
    items: &[Item],
    a: u32,
    b: u32,
) -> Result<Vec<u32>, Fail> {
    let mut words = Vec::new(rt.alloc());
    let last = place_of(items, u32::MAX).wrapping_add(5);
    for (d, n) in [
        (half(14, Part::W0), (a % 65_536) as u16),
        (half(14, Part::W2), (a / 65_536) as u16),
        (half(15, Part::W0), (b % 65_536) as u16),
        (half(15, Part::W2), (b / 65_536) as u16),
        (half(3, Part::W2), last),
    ] {
        words.push(encode(&Inst::Ldi { d, n }))?;
    }
    let mut at = 0u16;
    for item in items {
        match *item {
            Item::Whole(inst) => words.push(encode(&inst))?,
            Item::Aimed { inst, target } => words.push(encode(&aimed(items, at, inst, target)))?,
            _ => continue,
        }
        at = at.wrapping_add(1);
    }
    words.push(encode(&Inst::Halt))?;
    Ok(words)
}

/// R14 after so many steps of the body, if the core is then at the last word, and was nowhere stopped.
fn run<R: AllocGlobal + Abort>(
    rt: &R,
    items: &[Item],
    a: u32,
    b: u32,
    count: u32,
) -> Result<Option<u32>, Fail> {
    let alloc = rt.alloc();
    let words = words_of(rt, items, a, b)?;
    let last = u32::from(place_of(items, u32::MAX)).wrapping_add(5);
    let init: Vec<u8> = Vec::new(alloc);
    let notes: Vec<Note> = Vec::new(alloc);
    assert!(rt; is_image(words.as_slice(), 0x10, init.as_slice(), 0, notes.as_slice()));
    let image = Image::new(words, 0x10, init, 0, notes);
    let mut core = Core::new(alloc, &image)?;
    let input = Input {
        r31: 0,
        bytes: [0; 124],
        pads: [0; 4],
    };
    let mut out = StepOut::new();
    for _ in 0..count.saturating_add(5) {
        step(&mut core, &image, &input, &mut out);
        if out.stop != Stop::Going || !out.events.as_slice().is_empty() {
            return Ok(None);
        }
    }
    Ok(if core.pc() == last {
        Some(core.reg(14))
    } else {
        None
    })
}

/// The number that a helper computes.
fn number(h: Helper, a: u32, b: u32) -> u32 {
    match h {
        Helper::Mul => a.wrapping_mul(b),
        Helper::DivU => quot_u(a, b),
        Helper::RemU => rem_u(a, b),
        Helper::DivS => quot_s(a, b),
        Helper::RemS => rem_s(a, b),
    }
}

fn check<R: AllocGlobal + Abort>(rt: &R, h: Helper, items: &[Item]) -> Result<(), Fail> {
    for a in ENDS {
        for b in ENDS {
            let found = run(rt, items, a, b, cycles(h))?;
            assert_eq!(rt; found, Some(number(h, a, b)), "{a:x} {b:x}");
        }
    }
    Ok(())
}

/// The next number of a fixed generator.
fn next(n: u32) -> u32 {
    n.wrapping_mul(1_664_525).wrapping_add(1_013_904_223)
}

/// Ten thousand pairs, of which the second has any length.
fn check_many<R: AllocGlobal + Abort>(rt: &R, h: Helper, items: &[Item]) -> Result<(), Fail> {
    let mut n = 1;
    for _ in 0..10_000u32 {
        let a = next(n);
        n = next(a);
        let b = n >> (a / 65_536 % 32);
        let found = run(rt, items, a, b, cycles(h))?;
        assert_eq!(rt; found, Some(number(h, a, b)), "{a:x} {b:x}");
    }
    Ok(())
}

#[test]
fn multiplies(rt: HostRuntime) -> Result<(), Fail> {
    check(&rt, Helper::Mul, mul(rt.alloc())?.items())
}

#[test]
fn divides(rt: HostRuntime) -> Result<(), Fail> {
    check(&rt, Helper::DivU, divu(rt.alloc())?.items())?;
    check(&rt, Helper::RemU, remu(rt.alloc())?.items())?;
    check(&rt, Helper::DivS, divs(rt.alloc())?.items())?;
    check(&rt, Helper::RemS, rems(rt.alloc())?.items())
}

#[test]
fn many_products(rt: HostRuntime) -> Result<(), Fail> {
    check_many(&rt, Helper::Mul, mul(rt.alloc())?.items())
}

#[test]
fn many_quotients(rt: HostRuntime) -> Result<(), Fail> {
    check_many(&rt, Helper::DivU, divu(rt.alloc())?.items())?;
    check_many(&rt, Helper::DivS, divs(rt.alloc())?.items())
}

#[test]
fn many_remainders(rt: HostRuntime) -> Result<(), Fail> {
    check_many(&rt, Helper::RemU, remu(rt.alloc())?.items())?;
    check_many(&rt, Helper::RemS, rems(rt.alloc())?.items())
}
