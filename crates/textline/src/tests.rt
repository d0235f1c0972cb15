use super::*;
use std::test::*;

#[test]
fn hexadecimal_numbers_print_in_full(rt: HostRuntime) -> Result<(), Fail> {
    for (number, wanted) in [
        (0, "00000000"),
        (0x1dfc, "00001dfc"),
        (0x8000_0000, "80000000"),
        (0xfedc_ba98, "fedcba98"),
    ] {
        assert_eq!(rt; Hex8(number).to_string(rt.alloc())?.as_str(), wanted);
    }
    for (number, wanted) in [(0, "0000"), (10, "000a"), (0xffff, "ffff")] {
        assert_eq!(rt; Hex4(number).to_string(rt.alloc())?.as_str(), wanted);
    }
    Ok(())
}

#[test]
fn words_are_read_as_numbers(rt: HostRuntime) {
    for (word, wanted) in [
        (b"0".as_slice(), Some(0)),
        (b"10", Some(10)),
        (b"4294967295", Some(4_294_967_295)),
        (b"4294967296", None),
        (b"99999999999999999999999", None),
    ] {
        let number = read_decimal(word);
        assert!(rt; number.is_some(), "{word:?}");
        assert_eq!(rt;
            number.and_then(|n| n.at_most(u32::MAX)),
            wanted,
            "{word:?}"
        );
    }
    for word in [b"".as_slice(), b"00", b"01", b"-1", b"+1", b"1a", b" 1"] {
        assert!(rt; read_decimal(word).is_none(), "{word:?}");
    }
    for (word, wanted) in [
        (b"00001dfc".as_slice(), Some(0x1dfc)),
        (b"ffffffff", Some(0xffff_ffff)),
        (b"00001DFC", None),
        (b"0001dfc", None),
        (b"000001dfc", None),
        (b"0000gdfc", None),
    ] {
        assert_eq!(rt; read_hex8(word), wanted, "{word:?}");
    }
    assert_eq!(rt; read_hex4(b"0aff"), Some(0x0aff));
    assert_eq!(rt; read_hex4(b"0aff0"), None);
}

#[test]
fn lines_and_fields_come_in_order(rt: HostRuntime) -> Result<(), Fail> {
    let mut lines = Lines::of(b"5 poke 00001e00 cafe\n\nx  y");
    let mut fields = Fields::of(lines.next_line().ok_or("a line")?);
    let cycle = fields.decimal().ok_or("a number")?;
    assert_eq!(rt; cycle.at_most(5), Some(5));
    assert_eq!(rt; fields.word().ok_or("a word")?, b"poke".as_slice());
    assert_eq!(rt; fields.rest().ok_or("a rest")?, b"00001e00 cafe".as_slice());
    assert_eq!(rt; fields.hex8(), Some(0x1e00));
    assert!(rt; !fields.is_end());
    assert_eq!(rt; fields.hex4(), Some(0xcafe));
    assert!(rt; fields.is_end() && fields.word().is_none());

    assert_eq!(rt; lines.number(), 2);
    assert_eq!(rt; lines.next_whole().ok_or("an empty line")?, b"".as_slice());
    assert!(rt; lines.next_whole().is_none() && !lines.is_end());
    let mut fields = Fields::of(lines.next_line().ok_or("the last line")?);
    for wanted in [b"x".as_slice(), b"", b"y"] {
        assert_eq!(rt; fields.word().ok_or("a field")?, wanted);
    }
    assert!(rt; lines.is_end() && lines.next_line().is_none());
    assert_eq!(rt; lines.number(), 4);
    Ok(())
}

#[test]
fn words_are_cut_at_a_point(rt: HostRuntime) {
    assert!(rt; split_once(b"P0.3", b'.') == Some((b"P0".as_slice(), b"3".as_slice())));
    assert!(rt; split_once(b"P03", b'.').is_none());
}
