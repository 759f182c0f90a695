// What reaches a policy: of a set of emptied places, each one once and in ascending order; and through an `Either`, every
// notice and every question.

use crate::recorder::Recorder;
use crate::runs::Step::{Choose, Empty, Use};
use crate::runs::{ALL, follow};
use eviction::{Clock, Either, Notice, OldestUse, contains, tell_emptied};
use std::process::Abort;

// Tells a new policy of the emptied places of a set, and compares what it hears.
fn hears(rt: &impl Abort, places: u16, expected: &[u8]) {
    let mut policy = Recorder::new();
    tell_emptied(&mut policy, places);
    let heard = policy.heard().iter().copied();
    let expected = expected.iter().map(|place| Some(Notice::Emptied(*place)));
    assert!(rt; heard.eq(expected));
}

#[test]
fn emptied_places_are_told_once_in_ascending_order(rt: HostRuntime) {
    hears(&rt, 0, &[]);
    hears(&rt, 0b1000_0000_0000_0001, &[0, 15]);
    hears(&rt, 0b0001_0100_0010_0010, &[1, 5, 10, 12]);
    hears(
        &rt,
        ALL,
        &[0, 1, 2, 3, 4, 5, 6, 7, 8, 9, 10, 11, 12, 13, 14, 15],
    );
}

#[test]
fn sets_have_sixteen_places_at_most(rt: HostRuntime) {
    for (places, place, expected) in [
        (0b1000_0000_0000_0000, 15u8, true),
        (0b1000_0000_0000_0000, 14, false),
        (0b0000_0000_0000_0001, 0, true),
        (0b1111_1111_1111_1110, 0, false),
        (ALL, 15, true),
        (ALL, 16, false),
        (ALL, 255, false),
    ] {
        assert_eq!(rt; contains(places, place), expected);
    }
}

#[test]
fn policies_of_two_kinds_stand_in_one_list(rt: HostRuntime) {
    let mut policies = [
        Either::Left(OldestUse::new()),
        Either::Right(Clock::new()),
        Either::Left(OldestUse::new()),
    ];
    for (policy, first) in policies.iter_mut().zip([1u8, 0, 1]) {
        follow(
            &rt,
            policy,
            "two kinds in one list",
            &[
                Use(&[0, 1, 0]),
                Choose(0b0011, Some(first)),
                Use(&[1]),
                Empty(&[1]),
                Choose(0b0011, Some(1)),
                Choose(0, None),
            ],
        );
    }
}
