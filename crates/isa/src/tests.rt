use crate::{
    Access, AluOp, AsmProgram, Bank, Base, BranchOffset, Condition, Constant, Field, Image, Inst,
    Item, Jump, LoopBody, Note, NoteKind, Operand, Part, Relocation, Target, Transfer, Words,
    decode, encode, is_image, is_placed, is_whole,
};
use std::test::Fail;

const R1: Field = Field {
    reg: 1,
    part: Part::All,
};

const R2: Field = Field {
    reg: 2,
    part: Part::All,
};

const R3_W2: Field = Field {
    reg: 3,
    part: Part::W2,
};

// words worked out by hand from the word table
#[test]
fn registers(rt: HostRuntime) {
    let one = Operand::Imm(1);
    for (i, w) in [
        (
            Inst::Alu {
                op: AluOp::Add,
                d: R2,
                a: R2,
                b: one,
            },
            0x0101_e2e2,
        ),
        (
            Inst::Alu {
                op: AluOp::Set,
                d: R2,
                a: R1,
                b: Operand::Field(R3_W2),
            },
            0x1ec3_e1e2,
        ),
        (
            Inst::Not {
                d: Field {
                    reg: 1,
                    part: Part::B0,
                },
                a: Field {
                    reg: 2,
                    part: Part::W1,
                },
            },
            0x1600_a201,
        ),
        (
            Inst::Ldi {
                d: Field {
                    reg: 30,
                    part: Part::All,
                },
                n: 5,
            },
            0x2400_05fe,
        ),
        (
            Inst::Lmbd {
                d: R1,
                a: R2,
                b: one,
            },
            0x2701_e2e1,
        ),
        (Inst::Halt, 0x2a00_0000),
    ] {
        assert_eq!(rt; encode(&i), w);
        assert_eq!(rt; decode(w), Some(i));
    }
}

#[test]
fn control(rt: HostRuntime) {
    let (back, first, last) = (
        BranchOffset { words: -1 },
        BranchOffset { words: -512 },
        BranchOffset { words: 511 },
    );
    let (near, far) = (
        LoopBody {
            count: 1,
            length: 1,
        },
        LoopBody {
            count: 256,
            length: 255,
        },
    );
    for (i, w) in [
        (
            Inst::Jmp {
                to: Jump::Field(R3_W2),
            },
            0x20c3_0000,
        ),
        (
            Inst::Jmp {
                to: Jump::Word(0x1234),
            },
            0x2112_3400,
        ),
        (
            Inst::Jal {
                d: R3_W2,
                to: Jump::Field(R1),
            },
            0x22e1_00c3,
        ),
        (
            Inst::Jal {
                d: R3_W2,
                to: Jump::Word(7),
            },
            0x2300_07c3,
        ),
        (Inst::Loop { body: near }, 0x3100_0100),
        (Inst::Loop { body: far }, 0x31ff_ff00),
        (
            Inst::Branch {
                condition: Condition::Ne,
                offset: back,
                a: R2,
                b: Operand::Imm(0),
            },
            0x6f00_e2ff,
        ),
        (
            Inst::Branch {
                condition: Condition::Eq,
                offset: last,
                a: R1,
                b: Operand::Field(R2),
            },
            0x52e2_e1ff,
        ),
        (
            Inst::Branch {
                condition: Condition::Gt,
                offset: first,
                a: R1,
                b: Operand::Field(R2),
            },
            0x64e2_e100,
        ),
        (
            Inst::Branch {
                condition: Condition::BitClear,
                offset: last,
                a: R1,
                b: Operand::Imm(5),
            },
            0xcb05_e1ff,
        ),
        (Inst::Qba { offset: first }, 0x7d00_0000),
    ] {
        assert_eq!(rt; encode(&i), w);
        assert_eq!(rt; decode(w), Some(i));
    }
}

#[test]
fn memory(rt: HostRuntime) {
    let (c24, c28) = (Base::Constant(Constant::C24), Base::Constant(Constant::C28));
    let (zero, r5_b0) = (
        Operand::Imm(0),
        Operand::Field(Field {
            reg: 5,
            part: Part::B0,
        }),
    );
    let word = Access {
        first: 2,
        byte: 0,
        len: 4,
        base: c28,
        offset: zero,
    };
    let own = Access {
        first: 2,
        byte: 0,
        len: 4,
        base: c24,
        offset: zero,
    };
    let all = Access {
        first: 0,
        byte: 0,
        len: 120,
        base: Base::Reg(4),
        offset: r5_b0,
    };
    let byte = Access {
        first: 2,
        byte: 1,
        len: 1,
        base: Base::Reg(4),
        offset: Operand::Imm(8),
    };
    for (i, w) in [
        (Inst::Load { access: word }, 0x9100_1c62),
        (Inst::Store { access: own }, 0x8100_1862),
        (Inst::Store { access: all }, 0xe805_c4e0),
        (Inst::Load { access: byte }, 0xf308_0402),
        (
            Inst::Xin {
                moved: Transfer {
                    bank: Bank::Bank0,
                    first: 2,
                    count: 4,
                },
            },
            0x2e0a_0204,
        ),
        (
            Inst::Xout {
                moved: Transfer {
                    bank: Bank::Bank2,
                    first: 26,
                    count: 4,
                },
            },
            0x2f0c_1a04,
        ),
    ] {
        assert_eq!(rt; encode(&i), w);
        assert_eq!(rt; decode(w), Some(i));
    }
}

// one bit or number more than the rows above allow
#[test]
fn no_instruction(rt: HostRuntime) {
    for w in [
        0xffff_ffff,
        0x1700_e2e2,
        0x1601_e2e2,
        0x0200_e2e2,
        0x0600_e2e2,
        0x0e00_e2e2,
        0x20c3_0100,
        0x20c3_0001,
        0x2112_3401,
        0x22e1_01c3,
        0x2500_0000,
        0x2801_e2e1,
        0x2a00_0001,
        0x2b00_0000,
        0x2e0d_0204,
        0x2e00_0204,
        0x2e0a_0205,
        0x2e0a_0200,
        0x2e0a_1b04,
        0x3000_0100,
        0x3100_0000,
        0x3100_0101,
        0x4000_0000,
        0x7800_0000,
        0x7901_0000,
        0x7900_0100,
        0xc105_e102,
        0xd905_e102,
        0x8100_0162,
        0xa100_1862,
        0xe805_c4e1,
        0xea05_c4e0,
        0xe805_e460,
        0xf308_1e02,
        0xf2fe_0402,
    ] {
        assert_eq!(rt; decode(w), None, "{w:x}");
    }
}

// the words are `LBCO R2, C24, 0, 4`, `JMP R3.w2`, `QBNE` to the word before, `JMP 4` and `JMP 3`
const WORDS: [u32; 5] = [
    0x9100_1862,
    0x20c3_0000,
    0x6f00_e2ff,
    0x2100_0400,
    0x2100_0300,
];

#[test]
fn notes(rt: HostRuntime) {
    let stands = |word, kind, value| {
        is_image(&WORDS, 0x10, &[], 0, &[Note { word, kind, value }])
    };
    for (word, kind, value) in [
        (0, NoteKind::Enter, 63),
        (4, NoteKind::DelayIn, 1_000_000),
        (0, NoteKind::Own, 0),
        (1, NoteKind::Return, 0),
        (2, NoteKind::Turns, 1),
        (4, NoteKind::Turns, u32::MAX),
    ] {
        assert!(rt; stands(word, kind, value), "{word} {kind:?}");
    }
    for (word, kind, value) in [
        (0, NoteKind::Leave, 64),
        (0, NoteKind::DelayOut, 0),
        (0, NoteKind::DelayIn, 1_000_001),
        (5, NoteKind::Enter, 0),
        (0, NoteKind::Own, 1),
        (1, NoteKind::Own, 0),
        (4, NoteKind::Return, 0),
        (2, NoteKind::Turns, 0),
        (0, NoteKind::Turns, 1),
        (3, NoteKind::Turns, 2),
    ] {
        assert!(rt; !stands(word, kind, value), "{word} {kind:?}");
    }
    let (one, two) = (
        Note {
            word: 0,
            kind: NoteKind::Enter,
            value: 1,
        },
        Note {
            word: 0,
            kind: NoteKind::Own,
            value: 0,
        },
    );
    assert!(rt; is_image(&WORDS, 0x10, &[], 0, &[one, two]));
    assert!(rt; !is_image(&WORDS, 0x10, &[], 0, &[two, one]));
    assert!(rt; !is_image(&WORDS, 0x10, &[], 0, &[one, one]));
    assert!(rt; !is_image(&[0xffff_ffff], 0x10, &[], 0, &[]));
}

#[test]
fn placed(rt: HostRuntime) {
    for (at, init, zero, is) in [
        (0x10, 0, 0, true),
        (0x10, 1, 0x1def, true),
        (0x10, 1, 0x1df0, false),
        (0x1dfc, 4, 0, true),
        (0x1dfc, 0, 5, false),
        (0x1e00, 0, 0, false),
        (0x0c, 4, 0, false),
        (0x12, 0, 0, false),
        (0x11, 0, 0, false),
    ] {
        assert_eq!(rt; is_placed(at, init, zero), is, "{at:x}");
    }
}

#[test]
fn image(rt: HostRuntime) -> Result<(), Fail> {
    let words = vec![in rt.alloc(); 0x2a00_0000]?;
    let init = vec![in rt.alloc(); 1, 2]?;
    let notes = Vec::new(rt.alloc());
    let is = is_image(words.as_slice(), 0x10, init.as_slice(), 6, notes.as_slice());
    assert!(rt; is);
    let image = Image::new(words, 0x10, init, 6, notes);
    assert_eq!(rt; image.words().first().copied(), Some(0x2a00_0000));
    assert_eq!(rt;
        (image.data_at(), image.init().len(), image.zero()),
        (0x10, 2, 6)
    );
    assert!(rt; image.notes().is_empty());
    Ok(())
}

#[test]
fn lists(rt: HostRuntime) -> Result<(), Fail> {
    let halt = Item::Whole(Inst::Halt);
    let back = Item::Aimed {
        inst: Inst::Qba {
            offset: BranchOffset { words: -512 },
        },
        target: Target::Label(1),
    };
    let program = AsmProgram::new(vec![in rt.alloc(); Item::Label(1), halt, back]?);
    assert_eq!(rt; program.items().len(), 3);
    assert_eq!(rt; program.into_items().pop(), Some(back));
    let words = Words::new(
        vec![in rt.alloc(); 0x2a00_0000]?,
        Vec::new(rt.alloc()),
        Vec::new(rt.alloc()),
        Vec::new(rt.alloc()),
    );
    assert_eq!(rt; words.words().first().copied(), Some(0x2a00_0000));
    assert_eq!(rt;
        (words.notes().len(), words.refs().len(), words.lines().len()),
        (0, 0, 0)
    );
    assert_eq!(rt; words.into_parts().0.pop(), Some(0x2a00_0000));
    Ok(())
}

#[test]
fn relocations(rt: HostRuntime) {
    for (n, kind) in [
        (0, None),
        (1, Some(Relocation::Address)),
        (2, Some(Relocation::Low)),
        (3, Some(Relocation::High)),
        (4, Some(Relocation::Word)),
        (5, None),
    ] {
        assert!(rt; Relocation::from_number(n) == kind, "{n}");
    }
}

// a loop of two words whose last one goes back, and what is wrong without a line of it
#[test]
fn whole(rt: HostRuntime) -> Result<(), Fail> {
    let alloc = rt.alloc();
    let body = LoopBody {
        count: 3,
        length: 1,
    };
    let back = BranchOffset { words: -512 };
    let program = [
        Item::Aimed {
            inst: Inst::Loop { body },
            target: Target::Label(2),
        },
        Item::Label(1),
        Item::Note {
            kind: NoteKind::Turns,
            value: 4,
        },
        Item::Aimed {
            inst: Inst::Qba { offset: back },
            target: Target::Label(1),
        },
        Item::Label(2),
        Item::Whole(Inst::Halt),
    ];
    assert!(rt; is_whole(alloc, &program)?);
    assert!(rt; !is_whole(alloc, &program[..4])?, "no end of the loop");
    assert!(rt; !is_whole(alloc, &program[2..])?, "a note before its label");
    assert!(rt; !is_whole(alloc, &program[..3])?, "a note on no word");
    let twice = [Item::Label(1), Item::Label(1)];
    assert!(rt; !is_whole(alloc, &twice)?);
    Ok(())
}
