use super::*;
use csyn::{Cause, Span};

fn fault(line: u32, column: u32, cause: Cause) -> Fault {
    Fault {
        span: Span { line, column },
        cause,
    }
}

#[test]
fn least_is_kept(rt: HostRuntime) {
    let mut faults = Faults::new();
    assert_eq!(rt; faults.least(), None);
    let table = [
        (fault(2, 7, Cause::S4), fault(2, 7, Cause::S4)),
        (fault(2, 9, Cause::S1), fault(2, 7, Cause::S4)),
        (fault(3, 1, Cause::S1), fault(2, 7, Cause::S4)),
        (fault(2, 7, Cause::S20), fault(2, 7, Cause::S4)),
        (fault(2, 7, Cause::S3), fault(2, 7, Cause::S3)),
        (fault(1, 90, Cause::S25), fault(1, 90, Cause::S25)),
    ];
    for (noted, least) in table {
        faults.note(noted);
        assert_eq!(rt; faults.least(), Some(least));
    }
}

#[test]
fn rules_are_judged(rt: HostRuntime) {
    let broken = fault(1, 1, Cause::S5);
    let mut faults = Faults::new();
    assert_eq!(rt; judge(broken, Asked::of(Some(5u32)), &mut faults), Some(5));
    assert_eq!(rt; judge::<u32>(broken, Asked::Unsaid, &mut faults), None);
    assert_eq!(rt; faults.least(), None);
    let both = Asked::of(Some(5u32)).and(Asked::of(None::<u32>));
    assert_eq!(rt; judge(broken, both, &mut faults), None);
    assert_eq!(rt; faults.least(), Some(broken));
}
