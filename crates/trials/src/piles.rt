// The rules piled on one another, at their edges.
use model::limits::MOST_STAGES;
use rules::caps::{CountCap, UseCap};
use rules::harmonic::Harmonic;
use rules::load::Member;
use rules::response::Response;
use rules::rule::PassingRule;

// A count cap on a use cap on the response rule.
fn pile(count: u32, millionths: u32) -> CountCap<UseCap<Response>> {
    CountCap {
        most: count,
        below: UseCap {
            most: millionths,
            below: Response,
        },
    }
}

// All but one of the most members, with periods that rise by one to the longest.
fn nearly_full(cost: u32) -> [Member; 63] {
    let mut load = [Member::newcomer(cost, 60_000); 63];
    for (period, last) in (59_938..).zip(load.iter_mut()) {
        last.period = period;
    }
    load
}

#[test]
fn response_shares(rt: HostRuntime) {
    assert_eq!(rt;
        Response.share(&[Member::newcomer(1, 4), Member::newcomer(2, 6)], 4, 8),
        2
    );
    let first = Member {
        cost: 2,
        period: 4,
        hold: 2,
    };
    assert_eq!(rt; Response.share(&[first], 4, 8), 2);
    assert_eq!(rt; Response.share(&[Member::newcomer(1, 2)], 2, 3), 1);
    assert!(rt; Response.alone(3, 10, 7));
    assert!(rt; !Response.alone(3, 10, 8));
}

#[test]
fn harmonic_shares(rt: HostRuntime) {
    let first = Member {
        cost: 2,
        period: 4,
        hold: 2,
    };
    assert_eq!(rt; Harmonic.share(&[first], 4, 8), 4);
    assert_eq!(rt; Harmonic.share(&[Member::newcomer(1, 2)], 2, 3), 0);
    assert!(rt; Harmonic.alone(3, 10, 7));
    assert!(rt; !Harmonic.alone(3, 10, 8));
}

#[test]
fn uses_are_rounded_up(rt: HostRuntime) {
    let wide = UseCap {
        most: 333_334,
        below: Response,
    };
    let narrow = UseCap {
        most: 333_333,
        below: Response,
    };
    assert_eq!(rt; wide.share(&[], 1, 3), 1);
    assert_eq!(rt; narrow.share(&[], 1, 3), 0);
    assert!(rt; wide.alone(1, 3, 0));
    assert!(rt; !narrow.alone(1, 3, 0));
}

// Eleven members leave room for a twelfth, twelve for none.
#[test]
fn twelve_members_at_most(rt: HostRuntime) {
    let rule = pile(12, 900_000);
    assert_eq!(rt;
        rule.share(&[Member::newcomer(1, 4), Member::newcomer(2, 6)], 4, 8),
        2
    );
    assert_eq!(rt; rule.share(&[Member::newcomer(1, 100); 11], 1, 100), 1);
    assert_eq!(rt; rule.share(&[Member::newcomer(1, 100); 12], 1, 100), 0);
}

// Nine tenths of the core, and no tick more.
#[test]
fn nine_tenths_at_most(rt: HostRuntime) {
    let rule = pile(12, 900_000);
    assert_eq!(rt; rule.share(&[], 100, 100), 90);
    assert_eq!(rt; rule.share(&[Member::newcomer(8, 100); 11], 100, 100), 2);
    assert_eq!(rt; rule.share(&[Member::newcomer(90, 100)], 1, 100), 0);
    assert!(rt; rule.alone(90, 100, 0));
    assert!(rt; rule.alone(90, 100, 10));
    assert!(rt; !rule.alone(90, 100, 11));
    assert!(rt; !rule.alone(91, 100, 0));
}

#[test]
fn caps_of_nothing(rt: HostRuntime) {
    assert_eq!(rt; pile(0, 1_000_000).share(&[], 1, 2), 0);
    assert!(rt; !pile(0, 1_000_000).alone(1, 2, 0));
    assert_eq!(rt; pile(1, 0).share(&[], 1, 60_000), 0);
    assert!(rt; !pile(1, 0).alone(1, 60_000, 0));
    assert_eq!(rt; pile(u32::MAX, u32::MAX).share(&[], 60_000, 60_000), 60_000);
}

#[test]
fn extreme_numbers(rt: HostRuntime) {
    let rule = pile(12, 900_000);
    assert_eq!(rt; Response.share(&[], u32::MAX, u32::MAX), 0);
    assert_eq!(rt; Response.share(&[], u32::MAX, 60_000), 60_000);
    assert_eq!(rt; Harmonic.share(&[], u32::MAX, 60_000), 60_000);
    assert_eq!(rt; Response.share(&[], 1, 60_001), 0);
    assert_eq!(rt; Response.share(&[], 1, 1), 0);
    assert_eq!(rt; Response.share(&[], 0, 60_000), 0);
    assert_eq!(rt; Harmonic.share(&[], 0, 60_000), 0);
    assert_eq!(rt; rule.share(&[], u32::MAX, u32::MAX), 0);
    assert_eq!(rt;
        rule.share(&[Member::newcomer(u32::MAX, u32::MAX)], u32::MAX, 60_000),
        0
    );
    assert_eq!(rt; rule.share(&[Member::newcomer(0, 0)], 1, 60_000), 0);
    assert!(rt; !Response.alone(u32::MAX, 2, u32::MAX));
    assert!(rt; !Response.alone(1, 2, u32::MAX));
    assert!(rt; !Harmonic.alone(u32::MAX, u32::MAX, u32::MAX));
    assert!(rt; !rule.alone(0, 60_000, 0));
}

// Only the first member may be held, and periods never fall.
#[test]
fn unlawful_loads(rt: HostRuntime) {
    let held = Member {
        cost: 1,
        period: 8,
        hold: 1,
    };
    assert_eq!(rt; Response.share(&[held], 1, 8), 1);
    assert_eq!(rt; Response.share(&[Member::newcomer(1, 8), held], 1, 8), 0);
    assert_eq!(rt; Response.share(&[Member::newcomer(1, 8)], 1, 7), 0);
    assert_eq!(rt;
        Harmonic.share(&[Member::newcomer(1, 8), Member::newcomer(1, 4)], 1, 8),
        0
    );
}

#[test]
fn full_loads(rt: HostRuntime) {
    let rule = pile(64, 1_000_000);
    assert_eq!(rt;
        Response.share(&[Member::newcomer(1, 60_000); 63], 60_000, 60_000),
        59_937
    );
    assert_eq!(rt;
        rule.share(&[Member::newcomer(1, 60_000); 63], 60_000, 60_000),
        59_935
    );
    assert_eq!(rt;
        rule.share(&[Member::newcomer(1, 60_000); MOST_STAGES], 60_000, 60_000),
        0
    );
    assert_eq!(rt;
        Harmonic.share(&[Member::newcomer(1, 60_000); 63], 60_000, 60_000),
        59_937
    );
    assert_eq!(rt;
        Harmonic.share(&[Member::newcomer(1, 60_000); MOST_STAGES], 60_000, 60_000),
        0
    );
}

// What sixty-three members that use nearly all of the core leave.
fn share_left(count: u32, millionths: u32) -> u32 {
    pile(count, millionths).share(&nearly_full(900), 60_000, 60_000)
}

// The response rule leaves 3,238 ticks; a narrower use cap leaves less.
#[test]
fn periods_near_the_longest(rt: HostRuntime) {
    assert_eq!(rt; share_left(64, 1_000_000), 3_238);
    assert_eq!(rt; share_left(64, 950_000), 268);
    assert_eq!(rt; share_left(64, 900_000), 0);
    assert_eq!(rt; share_left(63, 1_000_000), 0);
}
