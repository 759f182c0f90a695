// Runs of the clock. A set is written with place 0 at the right.

use crate::runs::Step::{Choose, Empty, Use};
use crate::runs::{ALL, Step, follow_each};
use eviction::Clock;

const RUNS: [(&str, &[Step]); 10] = [
    (
        "the hand moves upward, and from 15 to 0",
        &[
            Choose(0, None),
            Choose(ALL, Some(0)),
            Choose(ALL, Some(1)),
            Choose(0b0000_0000_0000_0001, Some(0)),
            Choose(0b1000_0000_0000_1000, Some(3)),
            Choose(0b1000_0000_0000_1000, Some(15)),
            Choose(ALL, Some(0)),
        ],
    ),
    (
        "a mark makes the hand pass once",
        &[
            Use(&[0]),
            Choose(0b0011, Some(1)),
            Choose(0b0011, Some(0)),
            Choose(0b0011, Some(1)),
        ],
    ),
    (
        "every place has a mark: a full circle",
        &[
            Use(&[0, 1, 2, 3, 4, 5, 6, 7, 8, 9, 10, 11, 12, 13, 14, 15]),
            Choose(ALL, Some(0)),
            Choose(ALL, Some(1)),
            Use(&[2]),
            Choose(ALL, Some(3)),
            Choose(ALL, Some(4)),
            Choose(0b1100, Some(2)),
        ],
    ),
    (
        "a full circle that begins in the middle",
        &[
            Choose(0b0100_0000, Some(6)),
            Use(&[0, 1, 2, 3, 4, 5, 6, 7, 8, 9, 10, 11, 12, 13, 14, 15]),
            Choose(ALL, Some(7)),
            Choose(0b0001_1000_0000, Some(8)),
            Choose(0b0001_1000_0000, Some(7)),
        ],
    ),
    (
        "what is no member keeps its mark",
        &[
            Use(&[0, 1]),
            Choose(0b0110, Some(2)),
            Choose(0b0011, Some(1)),
            Choose(0b0011, Some(0)),
        ],
    ),
    (
        "members that come after the one that is taken keep their marks",
        &[
            Use(&[1, 3]),
            Choose(0b1110, Some(2)),
            Choose(0b1010, Some(1)),
            Choose(0b1010, Some(3)),
        ],
    ),
    (
        "emptying clears the mark",
        &[
            Use(&[4]),
            Empty(&[4]),
            Choose(0b0011_0000, Some(4)),
            Use(&[5]),
            Empty(&[4]),
            Choose(0b0011_0000, Some(4)),
            Choose(0b0011_0000, Some(5)),
        ],
    ),
    (
        "a number from 16 on is no place",
        &[
            Use(&[16, 31, 255]),
            Empty(&[16]),
            Choose(ALL, Some(0)),
            Use(&[1]),
            Empty(&[17, 33]),
            Choose(0b0110, Some(2)),
        ],
    ),
    (
        "asked among no places, the clock stays as it is",
        &[
            Use(&[0]),
            Choose(0b0010, Some(1)),
            Choose(0, None),
            Choose(0b0111, Some(2)),
            Choose(0, None),
            Choose(0b0011, Some(1)),
        ],
    ),
    (
        "the only member has a mark",
        &[
            Use(&[9]),
            Choose(0b0010_0000_0000, Some(9)),
            Choose(0b0110_0000_0000, Some(10)),
            Choose(0b0110_0000_0000, Some(9)),
        ],
    ),
];

#[test]
fn clock_gives_second_chances(rt: HostRuntime) {
    follow_each(&rt, Clock::new, &RUNS);
}
