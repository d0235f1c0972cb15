use super::*;
use prunum::Width;
use std::test::*;

fn at(cycle: u32, event: Event) -> Stamped {
    Stamped { event, cycle }
}

#[test]
fn each_event_has_its_line(rt: HostRuntime) -> Result<(), Fail> {
    let zero = [
        at(
            0,
            Event::Write {
                place: Place::Reg30,
                width: Width::B4,
                value: 5,
            },
        ),
        at(
            1,
            Event::Read {
                place: Place::Reg31,
                width: Width::B4,
                value: 0x4000_00ff,
            },
        ),
        at(
            4,
            Event::Read {
                place: Place::Addr(0x0001_0000),
                width: Width::B1,
                value: 0xfe,
            },
        ),
        at(
            5,
            Event::Write {
                place: Place::Pad { bank: 2, reg: 29 },
                width: Width::B2,
                value: 0xabcd,
            },
        ),
        at(6, Event::Halted),
    ];
    let one = [
        at(0, Event::Enter(63)),
        at(1, Event::DelayIn(10)),
        at(11, Event::DelayOut(10)),
        at(12, Event::Leave(63)),
    ];
    let text = print_events(rt.alloc(), &zero, &one)?;
    let wanted =
        b"core 0\nW R30 4 00000005\nR R31 4 400000ff\nR 00010000 1 000000fe\nW P2.29 2 0000abcd\nH\ncore 1\nE 63\nI 10\nO 10\nL 63\n";
    assert_eq!(rt; text.as_slice(), wanted.as_slice());
    Ok(())
}

#[test]
fn each_event_has_its_cycle(rt: HostRuntime) -> Result<(), Fail> {
    let zero = [at(3, Event::Enter(7)), at(1_999_999, Event::Halted)];
    let one = [at(0, Event::DelayIn(10))];
    let text = print_trace(rt.alloc(), &zero, &one)?;
    let wanted = b"core 0\n3 E 7\n1999999 H\ncore 1\n0 I 10\n";
    assert_eq!(rt; text.as_slice(), wanted.as_slice());
    Ok(())
}

/// The number of the first bad line, ample memory taken for granted.
fn bad_line(alloc: std::alloc::Global, text: &[u8]) -> Option<u32> {
    if text.len() >= 1000 {
        return None;
    }
    match read_events(alloc, text, 0) {
        Err(EventsFault::Line(number)) => Some(number),
        _ => None,
    }
}

#[test]
fn a_file_is_read_for_each_core(rt: HostRuntime) -> Result<(), Fail> {
    let text = b"core 0\nE 65535\ncore 1\nW P0.255 1 000000ff\nH\n";
    let zero = read_events(rt.alloc(), text, 0)?;
    assert_eq!(rt; zero.as_slice(), [Event::Enter(65_535)].as_slice());
    let one = read_events(rt.alloc(), text, 1)?;
    let pad = Event::Write {
        place: Place::Pad { bank: 0, reg: 255 },
        width: Width::B1,
        value: 255,
    };
    assert_eq!(rt; one.as_slice(), [pad, Event::Halted].as_slice());
    Ok(())
}

#[test]
fn the_first_bad_line_is_named(rt: HostRuntime) {
    for (text, line) in [
        (b"".as_slice(), 1),
        (b"core 1\n", 1),
        (b"core 0\n", 2),
        (b"core 0\ncore 1\nH", 3),
        (b"core 0\nE 65536\ncore 1\n", 2),
        (b"core 0\nR R31 3 00000000\ncore 1\n", 2),
        (b"core 0\nW R30 1 00000100\ncore 1\n", 2),
        (b"core 0\nW P0.256 1 00000000\ncore 1\n", 2),
    ] {
        assert_eq!(rt; bad_line(rt.alloc(), text), Some(line), "{text:?}");
    }
}
