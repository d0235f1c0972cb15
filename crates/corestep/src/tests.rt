ghost use Rattle.std.specs.Prelude.{◌≤◌, ◌<◌, IsTrue};
ghost use Rattle.isa.specs.Low.{is_low_base};

use crate::{Core, Input, StepOut, Stop, Table, cost, step};
use isa::{
    Access, AluOp, Bank, Base, BranchOffset, Condition, Constant, Field, Image, Inst, Jump,
    LoopBody, Note, NoteKind, Operand, Part, Transfer, encode, is_image,
};
use prunum::Width;
use prutrace::{Event, Place};
use std::process::Abort;
use std::test::Fail;

const R1: Field = Field {
    reg: 1,
    part: Part::All,
};

const R2: Field = Field {
    reg: 2,
    part: Part::All,
};

const R30: Field = Field {
    reg: 30,
    part: Part::All,
};

const R30_B1: Field = Field {
    reg: 30,
    part: Part::B1,
};

const R31: Field = Field {
    reg: 31,
    part: Part::All,
};

const R31_W1: Field = Field {
    reg: 31,
    part: Part::W1,
};

fn input() -> Input {
    let mut bytes = [0; 124];
    bytes[..7].copy_from_slice(&[1, 2, 3, 4, 5, 6, 7]);
    Input {
        r31: 0x8000_1234,
        bytes,
        pads: [0x11, 0x22, 0x33, 0x44],
    }
}

/// A core that has run so many words, R1 being 0x44332211 from the second on, and what the last showed.
fn run<R: AllocGlobal + Abort>(
    rt: &R,
    insts: &[Inst],
    notes: &[Note],
    count: usize,
) -> Result<(Core, StepOut), Fail> {
    let alloc = rt.alloc();
    let mut words = Vec::new(alloc);
    for i in [
        Inst::Ldi {
            d: Field {
                reg: 1,
                part: Part::W0,
            },
            n: 0x2211,
        },
        Inst::Ldi {
            d: Field {
                reg: 1,
                part: Part::W2,
            },
            n: 0x4433,
        },
    ]
    .iter()
    .chain(insts)
    {
        words.push(encode(i))?;
    }
    let init = [7u8, 8, 9].to_vec(alloc)?;
    let notes = notes.to_vec(alloc)?;
    assert!(rt; is_image(words.as_slice(), 0x10, init.as_slice(), 0, notes.as_slice()));
    let image = Image::new(words, 0x10, init, 0, notes);
    let mut core = Core::new(alloc, &image)?;
    let input = input();
    let mut out = StepOut::new();
    for _ in 0..count {
        step(&mut core, &image, &input, &mut out);
    }
    Ok((core, out))
}

fn alu(op: AluOp, a: Part, b: Operand) -> Inst {
    Inst::Alu {
        op,
        d: R2,
        a: Field { reg: 1, part: a },
        b,
    }
}

// R2 after one instruction, by SPRUIJ2's meaning of each
#[test]
fn values(rt: HostRuntime) -> Result<(), Fail> {
    let one = Operand::Field(R1);
    for (inst, value) in [
        (alu(AluOp::Add, Part::B0, Operand::Imm(255)), 0x110),
        (alu(AluOp::Add, Part::All, one), 0x8866_4422),
        (alu(AluOp::Sub, Part::B1, one), 0xbbcc_de11),
        (alu(AluOp::Rsb, Part::B2, one), 0x4433_21de),
        (alu(AluOp::Lsl, Part::B3, Operand::Imm(28)), 0x4000_0000),
        (alu(AluOp::Lsr, Part::W2, Operand::Imm(33)), 0x2219),
        (alu(AluOp::And, Part::W1, Operand::Imm(0xf0)), 0x20),
        (alu(AluOp::Or, Part::W0, Operand::Imm(0xff)), 0x22ff),
        (alu(AluOp::Xor, Part::All, one), 0),
        (alu(AluOp::Min, Part::B0, Operand::Imm(3)), 3),
        (alu(AluOp::Max, Part::B0, Operand::Imm(3)), 0x11),
        (alu(AluOp::Clr, Part::B0, Operand::Imm(36)), 1),
        (alu(AluOp::Set, Part::B0, Operand::Imm(31)), 0x8000_0011),
        (Inst::Not { d: R2, a: R1 }, 0xbbcc_ddee),
        (
            Inst::Lmbd {
                d: R2,
                a: R1,
                b: Operand::Imm(1),
            },
            30,
        ),
        (
            Inst::Lmbd {
                d: R2,
                a: R1,
                b: Operand::Imm(2),
            },
            31,
        ),
        (
            Inst::Lmbd {
                d: R2,
                a: R2,
                b: Operand::Imm(1),
            },
            32,
        ),
        (
            Inst::Jal {
                d: R2,
                to: Jump::Word(9),
            },
            3,
        ),
    ] {
        let (core, out) = run(&rt, &[inst], &[], 3)?;
        assert_eq!(rt; core.reg(2), value, "{inst:?}");
        assert_eq!(rt; out.stop, Stop::Going);
        assert!(rt; out.events.as_slice().is_empty());
    }
    Ok(())
}

// a number is cut to the field, and the bytes beside it stay
#[test]
fn cuts(rt: HostRuntime) -> Result<(), Fail> {
    for (part, value) in [
        (Part::B0, 0x4433_22bc),
        (Part::B1, 0x4433_bc11),
        (Part::B2, 0x44bc_2211),
        (Part::B3, 0xbc33_2211),
        (Part::W0, 0x4433_9abc),
        (Part::W1, 0x449a_bc11),
        (Part::W2, 0x9abc_2211),
        (Part::All, 0x9abc),
    ] {
        let d = Field { reg: 1, part };
        let (core, _) = run(&rt, &[Inst::Ldi { d, n: 0x9abc }], &[], 3)?;
        assert_eq!(rt; core.reg(1), value, "{part:?}");
    }
    Ok(())
}

fn read(place: Place, width: Width, value: u32) -> Event {
    Event::Read {
        place,
        width,
        value,
    }
}

fn write(place: Place, width: Width, value: u32) -> Event {
    Event::Write {
        place,
        width,
        value,
    }
}

// first source before second, and a write shows the whole new value
#[test]
fn registers(rt: HostRuntime) -> Result<(), Fail> {
    let add = Inst::Alu {
        op: AluOp::Add,
        d: R30_B1,
        a: R31_W1,
        b: Operand::Field(R30),
    };
    let (core, out) = run(&rt, &[add], &[], 3)?;
    assert_eq!(rt; core.reg(30), 0x1200);
    assert_eq!(rt;
        out.events.as_slice(),
        [
            read(Place::Reg31, Width::B4, 0x8000_1234),
            read(Place::Reg30, Width::B4, 0),
            write(Place::Reg30, Width::B4, 0x1200),
        ]
        .as_slice()
    );

    let give = Inst::Ldi {
        d: R31_W1,
        n: 0x1234,
    };
    let (_, out) = run(&rt, &[give], &[], 3)?;
    assert_eq!(rt;
        out.events.as_slice(),
        [write(Place::Reg31, Width::B4, 0x12_3400)].as_slice()
    );

    let call = Inst::Jal {
        d: R30,
        to: Jump::Field(R31),
    };
    let (core, out) = run(&rt, &[call], &[], 3)?;
    assert_eq!(rt; core.pc(), 0x1234);
    assert_eq!(rt;
        out.events.as_slice(),
        [
            read(Place::Reg31, Width::B4, 0x8000_1234),
            write(Place::Reg30, Width::B4, 3),
        ]
        .as_slice()
    );
    Ok(())
}

fn access(base: Base, offset: u8, len: u8) -> Access
    requires some { 1 ≤ len }
    requires short { len ≤ 32 }
    requires low { IsTrue (is_low_base base) }
{
    Access {
        first: 1,
        byte: 0,
        len,
        base,
        offset: Operand::Imm(offset),
    }
}

// pieces of four bytes, then two, then one; what lies in the private part shows nothing
#[test]
fn accesses(rt: HostRuntime) -> Result<(), Fail> {
    let shared = Base::Constant(Constant::C28);
    let own = Base::Constant(Constant::C24);

    let load = Inst::Load {
        access: access(shared, 1, 7),
    };
    let (core, out) = run(&rt, &[load], &[], 3)?;
    assert_eq!(rt; core.reg(1), 0x0403_0201);
    assert_eq!(rt; core.reg(2), 0x0007_0605);
    assert_eq!(rt;
        out.events.as_slice(),
        [
            read(Place::Addr(0x1_0001), Width::B4, 0x0403_0201),
            read(Place::Addr(0x1_0005), Width::B2, 0x0605),
            read(Place::Addr(0x1_0007), Width::B1, 7),
        ]
        .as_slice()
    );
    assert!(rt; out.stored.as_slice().is_empty());

    let store = Inst::Store {
        access: access(shared, 0, 3),
    };
    let (_, out) = run(&rt, &[store], &[], 3)?;
    assert_eq!(rt; out.at, 0x1_0000);
    assert_eq!(rt; out.stored.as_slice(), [0x11, 0x22, 0x33].as_slice());
    assert_eq!(rt;
        out.events.as_slice(),
        [
            write(Place::Addr(0x1_0000), Width::B2, 0x2211),
            write(Place::Addr(0x1_0002), Width::B1, 0x33),
        ]
        .as_slice()
    );

    let private = Inst::Load {
        access: access(own, 0x11, 2),
    };
    let (core, out) = run(&rt, &[private], &[], 3)?;
    assert_eq!(rt; core.reg(1), 0x4433_0908);
    assert!(rt; out.events.as_slice().is_empty());
    Ok(())
}

// a store over the end of the private part shows whole, and its first bytes are in the core
#[test]
fn window(rt: HostRuntime) -> Result<(), Fail> {
    let at = Inst::Ldi { d: R2, n: 0x1dfe };
    let store = Inst::Store {
        access: access(Base::Reg(2), 0, 4),
    };
    let (core, out) = run(&rt, &[at, store], &[], 4)?;
    assert_eq!(rt; core.byte(0x1dfe), 0x11);
    assert_eq!(rt; core.byte(0x1dff), 0x22);
    assert_eq!(rt; out.at, 0x1dfe);
    assert_eq!(rt;
        out.events.as_slice(),
        [write(Place::Addr(0x1dfe), Width::B4, 0x4433_2211)].as_slice()
    );

    let low = Inst::Ldi { d: R2, n: 0x1dfc };
    let (mut core, out) = run(&rt, &[low, store], &[], 4)?;
    assert_eq!(rt; core.byte(0x1dff), 0x44);
    assert!(rt; out.events.as_slice().is_empty());
    core.set_byte(0x1dff, 5);
    assert_eq!(rt; core.byte(0x1dff), 5);
    Ok(())
}

#[test]
fn scratchpad(rt: HostRuntime) -> Result<(), Fail> {
    let moved = Transfer {
        bank: Bank::Bank1,
        first: 1,
        count: 2,
    };
    let (core, out) = run(&rt, &[Inst::Xin { moved }], &[], 3)?;
    assert_eq!(rt; core.reg(1), 0x11);
    assert_eq!(rt; core.reg(2), 0x22);
    assert_eq!(rt;
        out.events.as_slice(),
        [
            read(Place::Pad { bank: 1, reg: 1 }, Width::B4, 0x11),
            read(Place::Pad { bank: 1, reg: 2 }, Width::B4, 0x22),
        ]
        .as_slice()
    );
    let (_, out) = run(&rt, &[Inst::Xout { moved }], &[], 3)?;
    assert_eq!(rt;
        out.events.as_slice(),
        [
            write(Place::Pad { bank: 1, reg: 1 }, Width::B4, 0x4433_2211),
            write(Place::Pad { bank: 1, reg: 2 }, Width::B4, 0),
        ]
        .as_slice()
    );
    Ok(())
}

fn add_one(reg: u8) -> Inst
    requires { reg < 32 }
{
    let d = Field {
        reg,
        part: Part::All,
    };
    Inst::Alu {
        op: AluOp::Add,
        d,
        a: d,
        b: Operand::Imm(1),
    }
}

// R2 counts the turns and R3 what is done behind the body: LOOP once, often, with a jump out of it, and with a second LOOP in it
#[test]
fn turns(rt: HostRuntime) -> Result<(), Fail> {
    let body = LoopBody {
        count: 256,
        length: 1,
    };
    let (core, _) = run(
        &rt,
        &[Inst::Loop { body }, add_one(2), add_one(3)],
        &[],
        3 + 256 + 1,
    )?;
    assert_eq!(rt; core.reg(2), 256);
    assert_eq!(rt; core.reg(3), 1);

    let body = LoopBody {
        count: 1,
        length: 1,
    };
    let (core, _) = run(&rt, &[Inst::Loop { body }, add_one(2), add_one(3)], &[], 5)?;
    assert_eq!(rt; core.reg(2), 1);
    assert_eq!(rt; core.reg(3), 1);

    let body = LoopBody {
        count: 3,
        length: 2,
    };
    let out = Inst::Qba {
        offset: BranchOffset { words: 3 },
    };
    let back = Inst::Qba {
        offset: BranchOffset { words: -2 },
    };
    let (core, _) = run(
        &rt,
        &[Inst::Loop { body }, out, add_one(2), add_one(3), back],
        &[],
        8,
    )?;
    assert_eq!(rt; core.reg(2), 1);
    assert_eq!(rt; core.reg(3), 1);

    let second = LoopBody {
        count: 2,
        length: 1,
    };
    let (core, _) = run(
        &rt,
        &[
            Inst::Loop { body },
            Inst::Loop { body: second },
            add_one(2),
            add_one(3),
        ],
        &[],
        7,
    )?;
    assert_eq!(rt; core.reg(2), 2);
    assert_eq!(rt; core.reg(3), 1);
    Ok(())
}

// whether a branch of B over A is taken, A being 0x11 and B the number
#[test]
fn branches(rt: HostRuntime) -> Result<(), Fail> {
    let offset = BranchOffset { words: 5 };
    for (condition, b, taken) in [
        (Condition::Lt, 0x10, true),
        (Condition::Lt, 0x11, false),
        (Condition::Le, 0x11, true),
        (Condition::Eq, 0x11, true),
        (Condition::Ne, 0x11, false),
        (Condition::Gt, 0x12, true),
        (Condition::Gt, 0x11, false),
        (Condition::Ge, 0x11, true),
        (Condition::Ge, 0x10, false),
        (Condition::BitSet, 36, true),
        (Condition::BitClear, 36, false),
        (Condition::BitClear, 1, true),
    ] {
        let a = Field {
            reg: 1,
            part: Part::B0,
        };
        let b = Operand::Imm(b);
        let (core, _) = run(
            &rt,
            &[Inst::Branch {
                condition,
                offset,
                a,
                b,
            }],
            &[],
            3,
        )?;
        assert_eq!(rt; core.pc(), if taken { 7 } else { 3 }, "{condition:?} {b:?}");
    }
    Ok(())
}

// all four marks of a word, in their order, round its own event
#[test]
fn marks(rt: HostRuntime) -> Result<(), Fail> {
    let notes = [
        (NoteKind::Enter, 3),
        (NoteKind::DelayIn, 1),
        (NoteKind::DelayOut, 1),
        (NoteKind::Leave, 3),
    ]
    .map(|(kind, value)| Note {
        word: 2,
        kind,
        value,
    });
    let (core, out) = run(&rt, &[Inst::Halt], &notes, 3)?;
    assert_eq!(rt; core.pc(), 2);
    assert_eq!(rt; out.stop, Stop::Halted);
    assert_eq!(rt;
        out.events.as_slice(),
        [
            Event::Enter(3),
            Event::DelayIn(1),
            Event::Halted,
            Event::DelayOut(1),
            Event::Leave(3),
        ]
        .as_slice()
    );
    let (_, out) = run(&rt, &[Inst::Halt], &notes, 2)?;
    assert!(rt; out.events.as_slice().is_empty());
    Ok(())
}

// past the code nothing happens
#[test]
fn past_the_code(rt: HostRuntime) -> Result<(), Fail> {
    let (core, out) = run(&rt, &[], &[], 3)?;
    assert_eq!(rt; core.pc(), 2);
    assert_eq!(rt; out.stop, Stop::Stuck);
    Ok(())
}

// `SBCO R1, C28, 0, 4` and its kin at each class
#[test]
fn costs(rt: HostRuntime) {
    let access = access(Base::Constant(Constant::C28), 0, 9);
    let load = Inst::Load { access };
    let store = Inst::Store { access };
    for (inst, addr, one, two) in [
        (Inst::Halt, 0, 1, 1),
        (load, 0x1fff, 5, 6),
        (store, 0, 4, 5),
        (load, 0x2000, 12, 13),
        (store, 0x7_ffff, 11, 12),
        (load, 0x8_0000, 32, 53),
        (store, 0x8_ffff, 31, 52),
        (store, 0x9_0000, 11, 12),
    ] {
        assert_eq!(rt; cost(Table::One, &inst, addr, 7), one, "{addr:x}");
        assert_eq!(rt; cost(Table::Two, &inst, addr, 7), two, "{addr:x}");
    }
}
