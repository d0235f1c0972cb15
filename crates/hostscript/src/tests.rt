use super::*;
use prunum::Width;
use std::test::*;

/// The fault of a text, ample memory taken for granted.
fn fault(alloc: std::alloc::Global, text: &[u8]) -> Option<ScriptFault> {
    if text.len() >= 1000 {
        return None;
    }
    read_script(alloc, text).err()
}

#[test]
fn bad_lines_are_named(rt: HostRuntime) {
    for (text, line, cause) in [
        (
            b"5 event 20\n4 event 20\n".as_slice(),
            2,
            ScriptCause::Order,
        ),
        (b"0 poke 00001dfc 4 00000001", 1, ScriptCause::Range),
        (b"0 event 64", 1, ScriptCause::Range),
        (b"0 event 64 x", 1, ScriptCause::Form),
        (b"jump", 1, ScriptCause::Form),
        (b"# a\n\njump\n5 event 99", 3, ScriptCause::Form),
        (b"2000000 event 1", 1, ScriptCause::Range),
        (b"99999999999999999999999 event 1", 1, ScriptCause::Range),
        (b"01 event 1", 1, ScriptCause::Form),
        (b"1  event 1", 1, ScriptCause::Form),
        (b"1 event 1 ", 1, ScriptCause::Form),
        (b"1 pins 2 00ff", 1, ScriptCause::Range),
        (b"1 pins 1 00FF", 1, ScriptCause::Form),
        (b"1 start 2", 1, ScriptCause::Range),
        (b"1 poke 00001e00 3 00000001", 1, ScriptCause::Range),
        (b"1 poke 00001e01 2 00000001", 1, ScriptCause::Range),
        (b"1 poke 00001e00 1 00000100", 1, ScriptCause::Range),
        (b"1 poke 00002000 1 00000001", 1, ScriptCause::Range),
        (b"1 poke 00003dff 1 00000001", 1, ScriptCause::Range),
        (b"1 poke 00004000 1 00000001", 1, ScriptCause::Range),
        (b"1 poke 0000ffff 1 00000001", 1, ScriptCause::Range),
        (b"1 poke 00013000 1 00000001", 1, ScriptCause::Range),
        (b"1 poke 0007ffff 1 00000001", 1, ScriptCause::Range),
        (b"1 poke 00090000 1 00000001", 1, ScriptCause::Range),
        (b"arb 0", 1, ScriptCause::Form),
        (b"arb 0 256", 1, ScriptCause::Range),
        (b"arb 0 256 x", 1, ScriptCause::Form),
        (b"arb 2 1", 1, ScriptCause::Range),
    ] {
        let wanted = Some(ScriptFault::Line { line, cause });
        assert_eq!(rt; fault(rt.alloc(), text), wanted, "{text:?}");
    }
}

#[test]
fn a_script_is_read_whole(rt: HostRuntime) -> Result<(), Fail> {
    let text =
        b"arb 1 7\n0 poke 00001e00 1 000000ff\n0 poke 00001ffe 2 0000ffff\n0 poke 00003e00 4 ffffffff\n\
          0 poke 00003fff 1 00000000\n0 poke 00010000 4 00000001\n0 poke 00012ffc 4 00000001\n\
          0 poke 00080000 4 00000001\n0 poke 0008fffc 4 00000001\n# \xc3\xa9\narb 0 255 0\n\n3 pins 1 00ff\n3 event 63\n\
          arb 1 8\n1999999 start 0";
    let script = read_script(rt.alloc(), text)?;
    let acts = script.acts.as_slice();
    assert_eq!(rt; acts.len(), 11);
    let poke = |addr, width, value| Act {
        cycle: 0,
        action: Action::Poke { addr, width, value },
    };
    for (act, wanted) in acts.iter().zip([
        poke(0x1e00, Width::B1, 0xff),
        poke(0x1ffe, Width::B2, 0xffff),
        poke(0x3e00, Width::B4, 0xffff_ffff),
        poke(0x3fff, Width::B1, 0),
        poke(0x10000, Width::B4, 1),
        poke(0x12ffc, Width::B4, 1),
        poke(0x80000, Width::B4, 1),
        poke(0x8fffc, Width::B4, 1),
        Act {
            cycle: 3,
            action: Action::Pins {
                core: 1,
                bits: 0xff,
            },
        },
        Act {
            cycle: 3,
            action: Action::Event(63),
        },
        Act {
            cycle: 1_999_999,
            action: Action::Start(0),
        },
    ]) {
        assert_eq!(rt; *act, wanted);
    }
    assert_eq!(rt; script.arb0.as_slice(), [255, 0].as_slice());
    assert_eq!(rt; script.arb1.as_slice(), [7, 8].as_slice());
    Ok(())
}
