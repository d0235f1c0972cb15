use super::*;
use corestep::Table;
use hostscript::ScriptCause;
use pruelf::LoadCause;
use std::alloc::Global;
use std::process::Abort;
use std::test::Fail;

// An executable of four words without data, by hand: the header; the program headers at 52 and 84; the code at 116.
const FRONT: [u32; 29] = [
    0x464c457f, 0x10101, 0, 0, 0x900002, 1, 0, 52, 240, 0, 0x200034, 0x280002, 0x80009, 1, 116, 0,
    0, 16, 16, 5, 4, 1, 132, 16, 16, 0, 0, 6, 4,
];

// The resource table at 132; the null symbol at 148; the symbols' names at 164.
const BEHIND: [u32; 9] = [1, 0, 0, 0, 0, 0, 0, 0, 0];

// The sections' names at 168.
const NAMES: &[u8; 72] =
    b"\0.text\0.data\0.bss\0.pru.notes\0.resource_table\0.symtab\0.strtab\0.shstrtab\0\0";

// The section headers at 240.
const SECTIONS: [u32; 90] = [
    0, 0, 0, 0, 0, 0, 0, 0, 0, 0, //
    1, 1, 6, 0, 116, 16, 0, 0, 4, 0, //
    7, 1, 3, 16, 132, 0, 0, 0, 4, 0, //
    13, 8, 3, 16, 132, 0, 0, 0, 4, 0, //
    18, 1, 0, 0, 132, 0, 0, 0, 4, 0, //
    29, 1, 0, 0, 132, 16, 0, 0, 4, 0, //
    45, 2, 0, 0, 148, 16, 7, 1, 4, 16, //
    53, 3, 0, 0, 164, 1, 0, 0, 1, 0, //
    61, 3, 0, 0, 168, 71, 0, 0, 1, 0,
];

// LBCO R2, C28, 0, 4; ADD R2, R2, 1; SBCO R2, C28, 0, 4; HALT
const UPDATE: [u32; 4] = [0x9100_1c62, 0x0101_e2e2, 0x8100_1c62, 0x2a00_0000];

// SBCO R2, C28, 0, 4; HALT; HALT; HALT
const STORE: [u32; 4] = [0x8100_1c62, 0x2a00_0000, 0x2a00_0000, 0x2a00_0000];

fn push_all(bytes: &mut Vec<u8>, words: &[u32]) -> Result<(), Fail> {
    for word in words {
        bytes.extend_from_slice(&word.to_le_bytes())?;
    }
    Ok(())
}

fn executable(alloc: Global, words: &[u32; 4]) -> Result<Vec<u8>, Fail> {
    let mut bytes = Vec::new(alloc);
    push_all(&mut bytes, &FRONT)?;
    push_all(&mut bytes, words)?;
    push_all(&mut bytes, &BEHIND)?;
    bytes.extend_from_slice(NAMES)?;
    push_all(&mut bytes, &SECTIONS)?;
    Ok(bytes)
}

/// Three short texts in a run of 20 cycles.
fn run(
    alloc: Global,
    zero: &[u8],
    one: &[u8],
    script: &[u8],
    table: Table,
) -> Result<Result<Texts, SimFault>, Fail> {
    if zero.len() > 1000 || one.len() > 1000 || script.len() > 1000 {
        return Err("too long")?;
    }
    Ok(simulate(alloc, zero, one, script, table, 20))
}

/// The files and lines of a run of these words by both cores.
fn leaves<R: AllocGlobal + Abort>(
    rt: &R,
    words: &[u32; 4],
    script: &[u8],
    table: Table,
    texts: [&str; 3],
) -> Result<(), Fail> {
    let bytes = executable(rt.alloc(), words)?;
    let left = run(rt.alloc(), &bytes, &bytes, script, table)?;
    let left = left.ok().ok_or("a run")?;
    assert_eq!(rt; left.events.as_slice(), texts[0].as_bytes());
    assert_eq!(rt; left.trace.as_slice(), texts[1].as_bytes());
    assert_eq!(rt; left.summary.as_str(), texts[2]);
    Ok(())
}

#[test]
fn runs(rt: HostRuntime) -> Result<(), Fail> {
    leaves(
        &rt,
        &UPDATE,
        b"",
        Table::One,
        [
            "core 0\nR 00010000 4 00000000\nW 00010000 4 00000001\nH\n\
            core 1\nR 00010000 4 00000000\nW 00010000 4 00000001\nH\n",
            "core 0\n2 R 00010000 4 00000000\n5 W 00010000 4 00000001\n6 H\n\
            core 1\n2 R 00010000 4 00000000\n5 W 00010000 4 00000001\n6 H\n",
            "core 0 events 3 instructions 4 halted\ncore 1 events 3 instructions 4 halted\n",
        ],
    )?;
    leaves(
        &rt,
        &UPDATE,
        b"arb 1 10",
        Table::One,
        [
            "core 0\nR 00010000 4 00000000\nW 00010000 4 00000001\nH\n\
            core 1\nR 00010000 4 00000001\nW 00010000 4 00000002\nH\n",
            "core 0\n2 R 00010000 4 00000000\n5 W 00010000 4 00000001\n6 H\n\
            core 1\n12 R 00010000 4 00000001\n15 W 00010000 4 00000002\n16 H\n",
            "core 0 events 3 instructions 4 halted\ncore 1 events 3 instructions 4 halted\n",
        ],
    )?;
    leaves(
        &rt,
        &STORE,
        b"19 start 1\n",
        Table::Two,
        [
            "core 0\nW 00010000 4 00000000\nH\ncore 1\n",
            "core 0\n2 W 00010000 4 00000000\n3 H\ncore 1\n",
            "core 0 events 2 instructions 2 halted\ncore 1 events 0 instructions 0 running\n",
        ],
    )
}

#[test]
fn the_first_fault_is_told(rt: HostRuntime) -> Result<(), Fail> {
    let alloc = rt.alloc();
    let whole = executable(alloc, &UPDATE)?;
    let wrong = executable(alloc, &[0, 0, 0, 0xffff_ffff])?;
    let elf = |core, offset, cause| SimFault::Elf {
        core,
        offset,
        cause,
    };
    let line = |line, cause| SimFault::Script { line, cause };
    let rows: [(&[u8], &[u8], &[u8], SimFault); 5] = [
        (b"", &wrong, b"x", elf(0, 0, LoadCause::Truncated)),
        (&whole, &wrong, b"x", elf(1, 128, LoadCause::Word)),
        (&wrong, &whole, b"x", elf(0, 128, LoadCause::Word)),
        (&whole, &whole, b"# 1\nx", line(2, ScriptCause::Form)),
        (
            &whole,
            &whole,
            b"3 start 0\n2 start 1\n",
            line(2, ScriptCause::Order),
        ),
    ];
    for (zero, one, script, fault) in rows {
        let left = run(alloc, zero, one, script, Table::One)?;
        assert!(&rt; left.err() == Some(fault));
    }
    Ok(())
}
