use crate::places;
use isa::Part;
use midcode::Signature;
use prunum::Width;

// Arguments of 1, 4, 2, 1, 1, 2, 4 and 1 bytes: each is at the next place behind the one before.
#[test]
fn mixed_widths(rt: HostRuntime) {
    let params = [
        Width::B1,
        Width::B4,
        Width::B2,
        Width::B1,
        Width::B1,
        Width::B2,
        Width::B4,
        Width::B1,
    ];
    let found = places(&Signature {
        params,
        count: 8,
        result: None,
    });
    let wanted = [
        (14, Part::B0),
        (15, Part::All),
        (16, Part::W0),
        (16, Part::B2),
        (16, Part::B3),
        (17, Part::W0),
        (18, Part::All),
        (19, Part::B0),
    ];
    assert_eq!(rt; found.count, 8);
    for i in 0..8usize {
        assert_eq!(rt; (found.fields[i].reg, found.fields[i].part), wanted[i]);
    }
}
