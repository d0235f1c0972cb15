use crate::{Intc, Pads, Pins};
use prunum::Width;

// Words written in turn, and then the offsets that are read with what they show.
struct Row {
    writes: &'static [(u32, u32)],
    reads: &'static [(u32, u32)],
}

const ROWS: &[Row] = &[
    Row {
        writes: &[(0x010, 0xffff_fffe)],
        reads: &[(0x010, 0)],
    },
    Row {
        writes: &[(0x010, 3)],
        reads: &[(0x010, 1)],
    },
    Row {
        writes: &[(0x020, 5), (0x020, 64 + 33), (0x028, 33)],
        reads: &[
            (0x020, 0),
            (0x200, 0x20),
            (0x204, 2),
            (0x280, 0),
            (0x284, 2),
            (0x304, 2),
        ],
    },
    Row {
        writes: &[
            (0x200, 0xff),
            (0x204, 0xf000_0001),
            (0x024, 3),
            (0x280, 0x81),
            (0x284, 0x8000_0000),
        ],
        reads: &[(0x024, 0), (0x200, 0x76), (0x204, 0x7000_0001)],
    },
    Row {
        writes: &[(0x300, 0xf0), (0x304, 7), (0x02c, 4), (0x02c, 32)],
        reads: &[(0x028, 0), (0x02c, 0), (0x300, 0xe0), (0x304, 6)],
    },
    Row {
        writes: &[(0x400, 0x8765_4321), (0x43c, 0xf9e8_d7c6)],
        reads: &[
            (0x400, 0x0705_0301),
            (0x404, 0),
            (0x43c, 0x0908_0706),
            (0x440, 0),
        ],
    },
    Row {
        writes: &[
            (0x800, 0x1234_5678),
            (0x808, 0xffff_ffff),
            (0x80c, 0xffff_ffff),
        ],
        reads: &[
            (0x800, 0x0204_0608),
            (0x804, 0),
            (0x808, 0x0f0f),
            (0x80c, 0),
        ],
    },
    Row {
        writes: &[(0x034, 9), (0x038, 9), (0x034, 10), (0x011, 1), (0x1ffc, 1)],
        reads: &[(0x034, 0), (0x038, 0), (0x010, 0), (0x011, 0), (0x1ffc, 0)],
    },
];

#[test]
fn registers(rt: HostRuntime) {
    for row in ROWS {
        let mut intc = Intc::new();
        for (at, value) in row.writes {
            intc.write(*at, Width::B4, *value);
        }
        for (at, want) in row.reads {
            assert_eq!(rt; intc.read(*at, Width::B4), *want, "at {at}");
            assert_eq!(rt; intc.read(*at, Width::B2), 0);
            assert_eq!(rt; intc.read(*at, Width::B1), 0);
        }
    }
}

#[test]
fn narrow_writes(rt: HostRuntime) {
    let mut intc = Intc::new();
    for w in [Width::B1, Width::B2] {
        for at in [0x010, 0x020, 0x028, 0x034, 0x200, 0x300, 0x400, 0x800] {
            intc.write(at, w, 1);
        }
    }
    assert_eq!(rt; intc == Intc::new(), true);
}

// Event 20 is enabled, and its channel is told by the word at 0x414. The answer is the host bits after the event.
#[test]
fn hosts(rt: HostRuntime) {
    for (enable, host_enable, channels, hosts, want) in [
        (1, 0, 0, 0, 1),
        (0, 0, 0, 0, 0),
        (1, 1, 0, 0, 0),
        (1, 9, 2, 0x0009_0000, 0x200),
        (1, 3, 1, 0x0000_0300, 8),
        (1, 0, 10, 0, 0),
        (1, 10, 0, 10, 0),
    ] {
        let mut intc = Intc::new();
        intc.write(0x010, Width::B4, enable);
        intc.write(0x028, Width::B4, 20);
        intc.write(0x034, Width::B4, host_enable);
        intc.write(0x414, Width::B4, channels);
        intc.write(0x800, Width::B4, hosts);
        assert_eq!(rt; intc.host_bits(), 0);
        intc.signal(21);
        assert_eq!(rt; intc.host_bits(), 0, "event 21 is disabled");
        intc.signal(20);
        assert_eq!(rt;
            intc.host_bits(),
            want,
            "channels {channels}, hosts {hosts}"
        );
        intc.write(0x024, Width::B4, 20);
        assert_eq!(rt; intc.host_bits(), 0, "no longer pending");
    }
}

#[test]
fn pads_and_pins(rt: HostRuntime) {
    let mut pads = Pads::new();
    pads.set(2, 29, 0xffff_ffff);
    pads.set(0, 29, 7);
    assert_eq!(rt;
        [
            pads.get(0, 29),
            pads.get(1, 29),
            pads.get(2, 29),
            pads.get(2, 28)
        ],
        [7, 0, 0xffff_ffff, 0]
    );
    let mut pins = Pins::new();
    pins.set_input(0, 0xffff);
    pins.set_output(1, 5);
    assert_eq!(rt; [pins.input(0), pins.input(1)], [0xffff, 0]);
    assert_eq!(rt; [pins.output(0), pins.output(1)], [0, 5]);
}
