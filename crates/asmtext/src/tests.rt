use crate::*;
use isa::AsmProgram;
use prunum::Memory;
use std::alloc::Global;
use std::fmt::Write;
use std::test::*;

/// Reads a text, as one that is short enough.
fn read(alloc: Global, text: &[u8]) -> Result<AsmProgram, AsmFault> {
    if text.len() >= 1 << 31 {
        return Err(AsmFault::Memory);
    }
    read_asm(alloc, text)
}

fn fault(rt: &HostRuntime, text: &[u8]) -> Option<(u32, AsmCause)> {
    match read(rt.alloc(), text) {
        Err(AsmFault::Line { line, cause }) => Some((line, cause)),
        _ => None,
    }
}

#[test]
fn bad_lines_have_their_cause(rt: HostRuntime) -> Result<(), Fail> {
    for (text, wanted) in [
        (b"ADD R2, R2, 256".as_slice(), (1, AsmCause::Range)),
        (b"FOO", (1, AsmCause::Form)),
        (b"JMP L9", (1, AsmCause::Label)),
        (b"HALT\n\n; a comment\nL1:\nL1: HALT", (5, AsmCause::Label)),
        (b".note own 0\nHALT", (1, AsmCause::Note)),
        (b"HALT\n.note enter 1", (2, AsmCause::Note)),
        (b".note enter 1\n.note enter 2\nHALT", (2, AsmCause::Range)),
        (b".note enter 64\nHALT", (1, AsmCause::Range)),
        (b"ADD R01, R2, R3", (1, AsmCause::Form)),
        (b"ADD R32, R2, R3", (1, AsmCause::Range)),
        (b"ADD R2.B1, R2, R3", (1, AsmCause::Form)),
        (b"ADD R2.b4, R2, R3", (1, AsmCause::Form)),
        (b"LBBO R2.w0, R4, 0, 4", (1, AsmCause::Form)),
        (b"LBBO R2, R4.b0, 0, 4", (1, AsmCause::Form)),
        (b"LBBO R30, R4, 0, 4", (1, AsmCause::Range)),
        (b"LBBO R2, R31, 0, 4", (1, AsmCause::Range)),
        (b"LBBO R29, R4, 0, 5", (1, AsmCause::Range)),
        (b"LBCO R2, C3, 0, 4", (1, AsmCause::Range)),
        (b"XIN 13, R2, 1", (1, AsmCause::Range)),
        (b"XIN 10, R29, 2", (1, AsmCause::Range)),
        (b"LDI R2, 05", (1, AsmCause::Form)),
        (b"LDI R2, 0X5", (1, AsmCause::Form)),
        (b"LDI R2, 0x100000000", (1, AsmCause::Range)),
        (b"QBA 4", (1, AsmCause::Form)),
        (b"LOOP 4, 1", (1, AsmCause::Form)),
        (b".NOTE enter 1\nHALT", (1, AsmCause::Form)),
        (b".note Enter 1\nHALT", (1, AsmCause::Form)),
        (b"L1 : HALT", (1, AsmCause::Form)),
        (b"L1: L2: HALT", (1, AsmCause::Form)),
        (b"HALT 1", (1, AsmCause::Form)),
    ] {
        assert_eq!(rt; fault(&rt, text), Some(wanted), "{text:?}");
    }
    Ok(())
}

#[test]
fn labels_loops_and_notes_are_judged_among_the_lines(rt: HostRuntime) -> Result<(), Fail> {
    for (text, wanted) in [
        // The end of a LOOP stands behind it, and one word or more between.
        (b"LOOP L1, 4\nL1: HALT".as_slice(), (1, AsmCause::Range)),
        (b"L1: LOOP L1, 4\nHALT", (1, AsmCause::Label)),
        (b"L1: HALT\nLOOP L1, 4\nHALT", (2, AsmCause::Label)),
        (
            b"HALT\nLOOP end, 4 ; too long\nlong: QBNE end, R2, 0\nend:",
            (0, AsmCause::Size),
        ),
        // A Turns note stands on a word that goes back; where the label stands nowhere, that alone is at fault.
        (b".note turns 3\nQBA L1\nL1: HALT", (1, AsmCause::Note)),
        (b".note turns 3\nQBA L9", (2, AsmCause::Label)),
        (b".note turns 3\nJMP R2", (1, AsmCause::Note)),
        (b".note return 0\nJAL R3.w2, R4", (1, AsmCause::Note)),
        (b".note own 0\nADD R2, R2, 256", (1, AsmCause::Note)),
        // A line without a form has no word and no label.
        (b".note own 0\nFOO\nSBCO R2, C28, 0, 4", (2, AsmCause::Form)),
        (b"JMP L1\nL1: FOO", (1, AsmCause::Label)),
        // One whose numbers are out of range has both.
        (b"JMP L1\nL1: ADD R2, R2, 256", (2, AsmCause::Range)),
        (b".note own 0\nLBCO R2, C3, 0, 4", (2, AsmCause::Range)),
        // The first bad line counts, whatever its cause, and on one line the first cause.
        (b"JMP L9\nFOO", (1, AsmCause::Label)),
        (b"FOO\nJMP L9", (1, AsmCause::Form)),
        (b"L1: HALT\nL1: ADD R2, R2, 256", (2, AsmCause::Range)),
        (b"L1: HALT\nL1: .note own 0\nHALT", (2, AsmCause::Label)),
        (b".note enter 64", (1, AsmCause::Range)),
        (b"LOOP L1, 4\nL1: FOO", (1, AsmCause::Label)),
        (b"LOOP L1, 4\nL1: JMP L9", (2, AsmCause::Label)),
    ] {
        let found = fault(&rt, text);
        match wanted {
            (0, _) => assert!(rt; found.is_none(), "{text:?}"),
            _ => assert_eq!(rt; found, Some(wanted), "{text:?}"),
        }
    }
    Ok(())
}

#[test]
fn what_is_read_is_printed(rt: HostRuntime) -> Result<(), Fail> {
    for (text, wanted) in [
        (
            b"LBCO R2, C28, 0, 4\nADD R2, R2, 1\nSBCO R2, C28, 0, 4\nHALT\n".as_slice(),
            b"LBCO R2, C28, 0, 4\nADD R2, R2, 1\nSBCO R2, C28, 0, 4\nHALT\n".as_slice(),
        ),
        (
            b" end:add r2.w1 ,R3 , 0x0aF ; \xc2\xb5s\n\n\t.note turns 3\n qbne end, r2, 0",
            b"L1:\nADD R2.w1, R3, 175\n.note turns 3\nQBNE L1, R2, 0\n",
        ),
        (b"lbbo & R2.b1, R4, R5.w0, 7", b"LBBO R2.b1, R4, R5.w0, 7\n"),
        (
            b"JMP R32\nR32: JAL R3.w2, R32\n",
            b"JMP L1\nL1:\nJAL R3.w2, L1\n",
        ),
        (b"LOOP b, 256\nNOT R1, R2\nb: a: JMP b", b""),
        (
            b" LDI R2, 8 ; pulses\npulse: SET R30, R30, 0\n CLR R30, R30, 0\n\tSUB R2, R2, 1\n.note turns 8\n QBNE pulse, R2, 0\n",
            b"LDI R2, 8\nL1:\nSET R30, R30, 0\nCLR R30, R30, 0\nSUB R2, R2, 1\n.note turns 8\nQBNE L1, R2, 0\n",
        ),
        (b"L1:; a label\nL2:\nQBA L2", b"L1:\nL2:\nQBA L2\n"),
        (b"", b""),
    ] {
        match read(rt.alloc(), text) {
            Ok(program) => {
                let printed = print_asm(rt.alloc(), &program)?;
                assert_eq!(rt; printed.as_slice(), wanted);
                let again = print_asm(rt.alloc(), &read(rt.alloc(), &printed)?)?;
                assert_eq!(rt; again.as_slice(), wanted);
            }
            Err(_) => assert!(rt; wanted.is_empty(), "{text:?}"),
        }
    }
    Ok(())
}

/// So many lines of one instruction between a LOOP and its end.
fn looped(alloc: Global, words: u32) -> Result<Vec<u8>, Memory> {
    let mut text = String::new(alloc);
    writeln!(text, "LOOP end, 2")?;
    for _ in 0..words {
        writeln!(text, "ADD R2, R2, 1")?;
    }
    writeln!(text, "end: HALT")?;
    Ok(text.into_bytes())
}

#[test]
fn bodies_have_up_to_255_words(rt: HostRuntime) -> Result<(), Fail> {
    let text = looped(rt.alloc(), 255)?;
    assert_eq!(rt; fault(&rt, &text), None);
    let text = looped(rt.alloc(), 256)?;
    assert_eq!(rt; fault(&rt, &text), Some((1, AsmCause::Range)));
    Ok(())
}

#[test]
fn many_lines_are_read_at_once(rt: HostRuntime) -> Result<(), Fail> {
    let mut text = String::new(rt.alloc());
    for number in 0..10_000u32 {
        writeln!(text, "a{number}: JMP a{number}")?;
    }
    let text = text.into_bytes();
    let program = read(rt.alloc(), &text)?;
    assert_eq!(rt; program.items().len(), 20_000);
    Ok(())
}
