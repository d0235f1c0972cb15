use super::*;
use std::alloc::Global;
use std::test::*;

// One trace, `log` at 0x10000, of 256 bytes: the offset of its entry at 16, the entry at 20, its name at 36.
const LOG: [u8; 68] = [
    1, 0, 0, 0, 1, 0, 0, 0, 0, 0, 0, 0, 0, 0, 0, 0, 0x14, 0, 0, 0, 2, 0, 0, 0, 0, 0, 1, 0, 0, 1, 0,
    0, 0, 0, 0, 0, b'l', b'o', b'g', 0, 0, 0, 0, 0, 0, 0, 0, 0, 0, 0, 0, 0, 0, 0, 0, 0, 0, 0, 0, 0,
    0, 0, 0, 0, 0, 0, 0, 0,
];

const NO_TRACES: [u8; 16] = [1, 0, 0, 0, 0, 0, 0, 0, 0, 0, 0, 0, 0, 0, 0, 0];

const FULL_NAME: &[u8] = b"0123456789abcdef0123456789ABCDEF";

fn trace(alloc: Global, name: &[u8], addr: u32, len: u32) -> Result<Trace, Fail> {
    let bytes = Vec::from_slice(alloc, name)?;
    if !is_name(bytes.as_slice()) {
        return Err("no name")?;
    }
    Ok(Trace {
        name: Name::from_vec(bytes),
        addr,
        len,
    })
}

/// Whether short bytes are read as these traces.
fn reads(alloc: Global, bytes: &[u8], wanted: &[(&[u8], u32, u32)]) -> Result<bool, Fail> {
    if bytes.len() >= 1000 {
        return Err("too many bytes")?;
    }
    let traces = read(alloc, bytes)?;
    if traces.len() != wanted.len() {
        return Ok(false);
    }
    for (trace, (name, addr, len)) in traces.iter().zip(wanted) {
        if trace.name.as_slice() != *name || trace.addr != *addr || trace.len != *len {
            return Ok(false);
        }
    }
    Ok(true)
}

#[test]
fn tables_are_written_and_read_again(rt: HostRuntime) -> Result<(), Fail> {
    let none = build(rt.alloc(), &[])?;
    assert_eq!(rt; none.as_slice(), NO_TRACES.as_slice());
    assert!(rt; reads(rt.alloc(), &NO_TRACES, &[])?);

    let log = build(rt.alloc(), &[trace(rt.alloc(), b"log", 0x10000, 256)?])?;
    assert_eq!(rt; log.as_slice(), LOG.as_slice());
    assert!(rt; reads(rt.alloc(), &LOG, &[(b"log", 0x10000, 256)])?);

    let two = build(
        rt.alloc(),
        &[
            trace(rt.alloc(), FULL_NAME, u32::MAX, 0)?,
            trace(rt.alloc(), b"", 0, u32::MAX)?,
        ],
    )?;
    let bytes = two.as_slice();
    assert_eq!(rt; bytes.len(), 120);
    for (at, wanted) in [
        (4, 2),
        (16, 24),
        (17, 0),
        (20, 72),
        (24, 2),
        (28, 255),
        (32, 0),
        (40, b'0'),
        (71, b'F'),
        (72, 2),
        (76, 0),
        (80, 255),
        (88, 0),
    ] {
        assert_eq!(rt; bytes.get(at).copied(), Some(wanted), "{at}");
    }
    assert!(rt;
        reads(
            rt.alloc(),
            bytes,
            &[(FULL_NAME, u32::MAX, 0), (b"", 0, u32::MAX)]
        )?
    );
    Ok(())
}

#[test]
fn faults_are_the_first(rt: HostRuntime) -> Result<(), Fail> {
    for len in 0..LOG.len() {
        let fault = read(rt.alloc(), &LOG[..len]).err();
        assert_eq!(rt; fault, Some(TableFault::At { offset: len as u32 }));
    }
    for (at, byte, wanted) in [
        (0, 2, Some(0)),
        (3, 1, Some(0)),
        // With no entry, or with two, the first offset is another.
        (4, 0, Some(16)),
        (4, 2, Some(16)),
        (7, 255, Some(16)),
        (9, 1, Some(8)),
        (15, 1, Some(12)),
        (16, 0x18, Some(16)),
        (20, 1, Some(20)),
        (24, 7, None),
        (31, 255, None),
        (34, 1, Some(32)),
        (36, b'L', None),
        (36, 0, Some(36)),
        (39, b's', None),
        (40, b's', Some(36)),
        (67, 1, Some(36)),
    ] {
        assert!(rt; at < LOG.len());
        let mut bytes = LOG;
        bytes[at] = byte;
        let fault = read(rt.alloc(), &bytes).err();
        assert_eq!(rt;
            fault,
            wanted.map(|offset| TableFault::At { offset }),
            "{at}"
        );
    }
    let behind = read(rt.alloc(), b"\x01\0\0\0\0\0\0\0\0\0\0\0\0\0\0\0\0").err();
    assert_eq!(rt; behind, Some(TableFault::At { offset: 16 }));
    Ok(())
}

#[test]
fn names_are_short_and_without_zeros(rt: HostRuntime) {
    for (bytes, wanted) in [
        (b"".as_slice(), true),
        (b"log", true),
        (FULL_NAME, true),
        (b"\xff ", true),
        (b"a\0", false),
        (b"\0", false),
        (b"0123456789abcdef0123456789abcdef0", false),
    ] {
        assert_eq!(rt; is_name(bytes), wanted, "{bytes:?}");
    }
}
