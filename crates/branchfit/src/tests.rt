use crate::*;
use isa::{
    AsmProgram, BranchOffset, Condition, Field, Inst, Item, LoopBody, NoteKind, Operand, Part,
    Target, Words, is_whole,
};
use std::alloc::Global;
use std::test::*;

/// QBEQ to a label, of R2 and 0.
fn branch(label: u32) -> Item {
    Item::Aimed {
        inst: Inst::Branch {
            condition: Condition::Eq,
            offset: BranchOffset { words: -512 },
            a: Field {
                reg: 2,
                part: Part::All,
            },
            b: Operand::Imm(0),
        },
        target: Target::Label(label),
    }
}

fn always(label: u32) -> Item {
    Item::Aimed {
        inst: Inst::Qba {
            offset: BranchOffset { words: -512 },
        },
        target: Target::Label(label),
    }
}

/// LOOP to a label, four times.
fn four_times(label: u32) -> Item {
    Item::Aimed {
        inst: Inst::Loop {
            body: LoopBody {
                count: 4,
                length: 1,
            },
        },
        target: Target::Label(label),
    }
}

/// Items, each so many times.
fn program(alloc: Global, parts: &[(usize, Item)]) -> Result<AsmProgram, Fail> {
    let mut items = Vec::new(alloc);
    for (count, item) in parts {
        for _ in 0..*count {
            items.push(*item)?;
        }
    }
    Ok(AsmProgram::new(items))
}

fn fitted_program(alloc: Global, p: &AsmProgram) -> Result<Result<Words, FitFault>, Fail> {
    if !is_whole(alloc, p.items())? {
        return Err("not whole".into());
    }
    match long_loop(alloc, p)? {
        Some(_) => Err("a long loop".into()),
        None => Ok(fit(alloc, p)),
    }
}

fn fitted(alloc: Global, parts: &[(usize, Item)]) -> Result<Words, Fail> {
    let words = fitted_program(alloc, &program(alloc, parts)?)??;
    Ok(words)
}

const HALT: Item = Item::Whole(Inst::Halt);

#[test]
fn far_branches_take_two_words(rt: HostRuntime) -> Result<(), Fail> {
    for (parts, place, wanted, length) in [
        (
            [(1, branch(1)), (510, HALT), (1, Item::Label(1))].as_slice(),
            0,
            0x5300_e2ff,
            511,
        ),
        (
            [(1, branch(1)), (511, HALT), (1, Item::Label(1))].as_slice(),
            0,
            0x6900_e202,
            513,
        ),
        (
            [(1, branch(1)), (511, HALT), (1, Item::Label(1))].as_slice(),
            1,
            0x2102_0100,
            513,
        ),
        (
            [(1, Item::Label(1)), (512, HALT), (1, branch(1))].as_slice(),
            512,
            0x5500_e200,
            513,
        ),
        (
            [(1, Item::Label(1)), (513, HALT), (1, branch(1))].as_slice(),
            513,
            0x6900_e202,
            515,
        ),
        (
            [(1, Item::Label(1)), (513, HALT), (1, branch(1))].as_slice(),
            514,
            0x2100_0000,
            515,
        ),
        (
            [(1, always(1)), (511, HALT), (1, Item::Label(1))].as_slice(),
            0,
            0x2102_0000,
            512,
        ),
    ] {
        let words = fitted(rt.alloc(), parts)?;
        assert_eq!(rt; words.words().len(), length);
        assert_eq!(rt; words.words().get(place).copied(), Some(wanted));
    }
    Ok(())
}

#[test]
fn far_branches_make_others_far(rt: HostRuntime) -> Result<(), Fail> {
    let parts = [
        (1, branch(1)),
        (509, HALT),
        (1, branch(2)),
        (1, Item::Label(1)),
        (511, HALT),
        (1, Item::Label(2)),
    ];
    let words = fitted(rt.alloc(), &parts)?;
    assert_eq!(rt; words.words().len(), 1024);
    assert_eq!(rt; words.words().get(1).copied(), Some(0x2102_0100));
    Ok(())
}

#[test]
fn turns_stands_on_the_jump(rt: HostRuntime) -> Result<(), Fail> {
    let turns = Item::Note {
        kind: NoteKind::Turns,
        value: 3,
    };
    let enter = Item::Note {
        kind: NoteKind::Enter,
        value: 1,
    };
    let parts = [
        (1, Item::Label(1)),
        (513, HALT),
        (1, turns),
        (1, enter),
        (1, branch(1)),
    ];
    let words = fitted(rt.alloc(), &parts)?;
    for (place, word, kind) in [(0, 513, 1), (1, 514, 7)] {
        let note = words.notes().get(place).ok_or("a note")?;
        assert_eq!(rt; note.word, word);
        assert_eq!(rt; note.kind.number(), kind);
    }
    Ok(())
}

#[test]
fn long_loops_are_found(rt: HostRuntime) -> Result<(), Fail> {
    for (parts, wanted) in [
        (
            [(1, four_times(1)), (255, HALT), (1, Item::Label(1))].as_slice(),
            None,
        ),
        (
            [
                (1, HALT),
                (1, four_times(1)),
                (256, HALT),
                (1, Item::Label(1)),
            ]
            .as_slice(),
            Some(1),
        ),
        (
            [(1, four_times(1)), (1, Item::Label(1))].as_slice(),
            Some(0),
        ),
        (
            [
                (1, four_times(1)),
                (1, branch(2)),
                (254, HALT),
                (1, Item::Label(1)),
                (300, HALT),
                (1, Item::Label(2)),
            ]
            .as_slice(),
            Some(0),
        ),
    ] {
        let p = program(rt.alloc(), parts)?;
        assert!(rt; is_whole(rt.alloc(), p.items())?);
        assert_eq!(rt; long_loop(rt.alloc(), &p)?, wanted);
    }
    Ok(())
}

#[test]
fn more_words_than_a_core_has_are_counted(rt: HostRuntime) -> Result<(), Fail> {
    for (count, wanted) in [(2048, None), (2049, Some(2049))] {
        let n = match fitted_program(rt.alloc(), &program(rt.alloc(), &[(count, HALT)])?)? {
            Err(FitFault::TooManyWords { n }) => Some(n),
            _ => None,
        };
        assert_eq!(rt; n, wanted);
    }
    Ok(())
}
