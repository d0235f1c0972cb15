use super::*;

fn step(from: u32, to: u32, cycles: u32) -> Step {
    Step {
        from,
        to,
        cost: Bounds {
            least: cycles,
            most: cycles,
        },
    }
}

fn one(sum: u32) -> Option<Bounds> {
    between(sum, sum)
}

fn between(least: u32, most: u32) -> Option<Bounds> {
    Some(Bounds { least, most })
}

fn timed(first: u32, last: u32, after: u32, turns: u32, turn: Option<Bounds>) -> TimedLoop {
    TimedLoop {
        shape: Loop {
            first,
            last,
            after,
            turns,
        },
        turn,
    }
}

// whether the table fits, and is tight on both sides, from word 0
fn judged(steps: &[Step], loops: &[TimedLoop], labels: &[Option<Bounds>]) -> (bool, bool, bool) {
    (
        fits(steps, loops, labels, 0),
        tight(Side::Least, steps, loops, labels, 0),
        tight(Side::Most, steps, loops, labels, 0),
    )
}

const RIGHT: (bool, bool, bool) = (true, true, true);

#[test]
fn straight(rt: HostRuntime) {
    let steps = [step(0, 1, 1), step(1, 2, 3)];
    assert_eq!(rt; judged(&steps, &[], &[one(0), one(1), one(4)]), RIGHT);
    assert_eq!(rt;
        judged(&steps, &[], &[one(0), one(1), one(5)]),
        (false, false, false)
    );
    assert_eq!(rt;
        judged(&steps, &[], &[one(0), one(1), between(3, 5)]),
        (true, false, false)
    );
    assert_eq!(rt;
        judged(&steps, &[], &[one(0), one(1), None]),
        (false, true, true)
    );
}

#[test]
fn unequal_arms(rt: HostRuntime) {
    let steps = [step(0, 1, 1), step(0, 2, 1), step(1, 3, 1), step(2, 3, 3)];
    let first = [one(0), one(1), one(1), between(2, 4)];
    assert_eq!(rt; judged(&steps, &[], &first), RIGHT);
    let one_arm = [one(0), one(1), one(1), one(2)];
    assert_eq!(rt; judged(&steps, &[], &one_arm), (false, true, true));
}

#[test]
fn one_loop(rt: HostRuntime) {
    let steps = [step(0, 1, 1), step(1, 2, 1), step(2, 1, 2), step(2, 3, 2)];
    let loops = [timed(1, 2, 2, 3, one(3))];
    let labels = [one(0), one(1), one(2), one(10)];
    assert_eq!(rt; judged(&steps, &loops, &labels), RIGHT);
    let a_turn_less = [one(0), one(1), one(2), one(7)];
    assert_eq!(rt; judged(&steps, &loops, &a_turn_less), (false, false, false));
}

#[test]
fn nested_loops(rt: HostRuntime) {
    let steps = [
        step(0, 1, 1),
        step(1, 2, 1),
        step(2, 3, 1),
        step(3, 2, 1),
        step(3, 4, 1),
        step(4, 1, 1),
        step(4, 5, 1),
    ];
    let loops = [timed(2, 3, 3, 3, one(2)), timed(1, 4, 4, 2, one(8))];
    let labels = [one(0), one(1), one(2), one(3), one(8), one(17)];
    assert_eq!(rt; judged(&steps, &loops, &labels), RIGHT);
}

#[test]
fn left_at_a_turn(rt: HostRuntime) {
    let steps = [
        step(0, 1, 1),
        step(1, 2, 1),
        step(2, 2, 1),
        step(2, 1, 1),
        step(2, 3, 1),
        step(3, 4, 1),
    ];
    let loops = [timed(2, 2, 2, 2, one(1)), timed(1, 3, 2, 2, one(3))];
    let labels = [one(0), one(1), one(2), one(4), one(8)];
    assert_eq!(rt; judged(&steps, &loops, &labels), RIGHT);
}

#[test]
fn call_in_a_loop(rt: HostRuntime) {
    let called = Bounds { least: 3, most: 7 };
    let call = Step {
        from: 1,
        to: 2,
        cost: called.with(2),
    };
    let steps = [step(0, 1, 1), call, step(2, 1, 1), step(2, 3, 1)];
    let loops = [timed(1, 2, 2, 2, between(6, 10))];
    let labels = [one(0), one(1), between(6, 10), between(13, 21)];
    assert_eq!(rt; judged(&steps, &loops, &labels), RIGHT);
}

// the laws may be called, and the parts
#[test]
fn laws_and_parts(rt: HostRuntime) {
    soundness();
    exactness();
    exact_labels();
    long_path();
    let turn = step(2, 1, 2);
    let loops = [timed(1, 2, 2, 3, one(3))];
    let labels = [one(0), one(1), one(2)];
    assert_eq!(rt; loops[0].shape.movement(&turn), Move::Turn);
    assert_eq!(rt;
        (
            gains(Side::Most, &turn, &loops),
            dues(Side::Most, &turn, &loops)
        ),
        (0, 3)
    );
    assert_eq!(rt; gains(Side::Most, &step(2, 3, 2), &loops), 6);
    assert_eq!(rt;
        (can_go(&turn, &loops), have_turns(&turn, &loops)),
        (true, true)
    );
    assert_eq!(rt;
        (
            turns_none(&turn, &loops),
            meets(Side::Least, &turn, &loops, &labels)
        ),
        (false, true)
    );
    assert_eq!(rt;
        (keeps_bounds(&turn, &loops, &labels), label_of(&labels, 3)),
        (true, None)
    );
}

// what one pass makes of empty labels
fn passed(
    steps: &[Step],
    loops: &mut [TimedLoop],
    labels: &mut [Option<Bounds>],
    limit: u32,
) -> Passed {
    pass(steps, loops, labels, 0, limit)
}

const LONGEST: u32 = 2_000_000;

#[test]
fn pass_over_unequal_arms(rt: HostRuntime) {
    let steps = [step(0, 1, 1), step(0, 2, 1), step(1, 3, 1), step(2, 3, 3)];
    let mut labels = [None; 4];
    assert_eq!(rt;
        passed(&steps, &mut [], &mut labels, LONGEST),
        Passed::Exact
    );
    assert_eq!(rt; labels, [one(0), one(1), one(1), between(2, 4)]);
}

#[test]
fn pass_over_nested_loops(rt: HostRuntime) {
    let steps = [
        step(0, 1, 1),
        step(1, 2, 1),
        step(2, 3, 1),
        step(3, 2, 1),
        step(3, 4, 1),
        step(4, 1, 1),
        step(4, 5, 1),
    ];
    let mut loops = [timed(2, 3, 3, 3, None), timed(1, 4, 4, 2, None)];
    let mut labels = [None; 6];
    assert_eq!(rt;
        passed(&steps, &mut loops, &mut labels, LONGEST),
        Passed::Exact
    );
    assert_eq!(rt; labels, [one(0), one(1), one(2), one(3), one(8), one(17)]);
    assert_eq!(rt;
        loops,
        [timed(2, 3, 3, 3, one(2)), timed(1, 4, 4, 2, one(8))]
    );
}

// the sum is just at the limit, and above it
#[test]
fn pass_to_the_limit(rt: HostRuntime) {
    let steps = [step(0, 1, 1), step(1, 1, 1), step(1, 2, 1)];
    let mut at = [timed(1, 1, 1, 1_999_999, None)];
    let mut labels = [None; 3];
    assert_eq!(rt;
        passed(&steps, &mut at, &mut labels, LONGEST),
        Passed::Exact
    );
    assert_eq!(rt; labels, [one(0), one(1), one(2_000_000)]);
    let mut above = [timed(1, 1, 1, 2_000_000, None)];
    let mut empty = [None; 3];
    assert_eq!(rt;
        passed(&steps, &mut above, &mut empty, LONGEST),
        Passed::Long
    );
    let mut most = [timed(1, 1, 1, 4_294_967_295, None)];
    let mut none = [None; 3];
    assert_eq!(rt; passed(&steps, &mut most, &mut none, LONGEST), Passed::Long);
}

#[test]
fn pass_out_of_order(rt: HostRuntime) {
    let steps = [step(1, 2, 1), step(0, 1, 1)];
    let mut labels = [None; 3];
    assert_eq!(rt;
        passed(&steps, &mut [], &mut labels, LONGEST),
        Passed::Disordered
    );
}
