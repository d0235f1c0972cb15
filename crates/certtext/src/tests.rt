use super::*;
use std::alloc::Global;
use std::test::*;

/// What a text is read as, printed again, and what was left out of it.
fn reread(alloc: Global, text: &[u8]) -> Result<(Vec<u8>, u32), CertsFault> {
    if text.len() >= 1000 {
        return Err(CertsFault::Memory);
    }
    let zero = read_certs(alloc, text, 0)?;
    let one = read_certs(alloc, text, 1)?;
    let printed = print_certs(alloc, zero.table, &zero.lines, &one.lines)?;
    Ok((printed, zero.left_out.saturating_add(one.left_out)))
}

/// The number of the first bad line, ample memory taken for granted.
fn bad_line(alloc: Global, text: &[u8]) -> Option<u32> {
    if text.len() >= 1000 {
        return None;
    }
    match read_certs(alloc, text, 1) {
        Err(CertsFault::Line(number)) => Some(number),
        _ => None,
    }
}

#[test]
fn certificates_are_read_in_both_editions(rt: HostRuntime) -> Result<(), Fail> {
    for (text, wanted, left_out) in [
        (
            b"certs 1\ncore 0\ncert 0 12\nat 0 0 0\nnone 1 unbalanced 9 4 5\ncore 1\n".as_slice(),
            b"certs 2 1\ncore 0\ncert 0 12 12\nat 0 0 0 0\ncore 1\n".as_slice(),
            1,
        ),
        (
            b"certs 1\ncore 0\nnone 3 unbalanced 9 5 4\nnone 4 long 65535\ncore 1\ncert 63 0\nat 0 65535 2000000\n",
            b"certs 2 1\ncore 0\nnone 4 long 65535\ncore 1\ncert 63 0 0\nat 0 65535 2000000 2000000\n",
            1,
        ),
        (
            b"certs 2 2\ncore 0\ncert 0 3 4\nat 0 0 0 0\nat 0 3 2 3\nat 1 2 0 9\n\
                none 7 touches 1\ncore 1\nnone 0 crossed 8\nnone 1 unbounded 0\n",
            b"certs 2 2\ncore 0\ncert 0 3 4\nat 0 0 0 0\nat 0 3 2 3\nat 1 2 0 9\n\
                none 7 touches 1\ncore 1\nnone 0 crossed 8\nnone 1 unbounded 0\n",
            0,
        ),
    ] {
        let (printed, count) = reread(rt.alloc(), text)?;
        assert_eq!(rt; printed.as_slice(), wanted);
        assert_eq!(rt; count, left_out);
    }
    Ok(())
}

#[test]
fn the_first_bad_line_is_named(rt: HostRuntime) {
    for (text, line) in [
        (b"".as_slice(), 1),
        (b"certs 3\n", 1),
        (b"certs 2\n", 1),
        (b"certs 1", 1),
        (b"certs 1\n", 2),
        (b"certs 1\ncore 1\n", 2),
        (b"certs 1\ncert 0 1\ncore 0\ncore 1\n", 2),
        (b"certs 1\ncore 0\n", 3),
        (b"certs 1\ncore 0\ncore 1", 3),
        (b"certs 1\ncore 0\ncore 1\ncore 1\n", 4),
        (b"certs 1\ncore 0\n\ncore 1\n", 3),
        (b"certs 1\ncore 0\ncert 0 1 1\ncore 1\n", 3),
        (b"certs 1\ncore 0\ncert 64 1\ncore 1\n", 3),
        (b"certs 1\ncore 0\ncert 0 01\ncore 1\n", 3),
        (b"certs 1\ncore 0\ncert 0 2000001\ncore 1\n", 3),
        (b"certs 1\ncore 0\nat 0 0 0\ncore 1\n", 3),
        (
            b"certs 1\ncore 0\nnone 0 unbalanced 9 4 5\nat 0 0 0\ncore 1\n",
            4,
        ),
        (b"certs 2 1\ncore 0\nnone 0 unbalanced 9 4 5\ncore 1\n", 3),
        (b"certs 2 1\ncore 0\ncert 0 1\ncore 1\n", 3),
        (b"certs 2 1\ncore 0\ncert 0 2 1\ncore 1\n", 3),
        (
            b"certs 2 1\ncore 0\ncert 0 1 2\nat 0 65536 0 0\ncore 1\n",
            4,
        ),
        (
            b"certs 2 1\ncore 0\ncert 0 1 2\nat 0 1 0 0\nat 0 1 0 0\ncore 1\n",
            5,
        ),
        (
            b"certs 2 1\ncore 0\ncert 0 1 2\nat 1 0 0 0\nat 0 9 0 0\ncore 1\n",
            5,
        ),
        (b"certs 2 1\ncore 0\ncert 1 1 2\nnone 1 long 4\ncore 1\n", 4),
        (b"certs 2 1\ncore 0\nnone 1 absent 4\ncore 1\n", 3),
        (b"certs 2 1\ncore 0\ncore 1\nnone 1 long 4 \n", 4),
    ] {
        assert_eq!(rt; bad_line(rt.alloc(), text), Some(line), "{text:?}");
    }
}
