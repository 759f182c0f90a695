// Runs of the policy of oldest use. A set is written with place 0 at the right.

use crate::runs::Step::{Choose, Empty, Use};
use crate::runs::{ALL, Step, follow_each};
use eviction::{Notice, OldestUse, Policy};

const RUNS: [(&str, &[Step]); 8] = [
    (
        "places that were not used go by their number",
        &[
            Choose(0, None),
            Choose(ALL, Some(0)),
            Choose(0b0000_0010_0010_0000, Some(5)),
            Choose(0b1000_0000_0000_0000, Some(15)),
            Choose(0, None),
        ],
    ),
    (
        "the place that was used longest ago goes first, and a choice is no use",
        &[
            Use(&[3, 5]),
            Choose(0b0010_1000, Some(3)),
            Choose(0b0010_1000, Some(3)),
            Choose(0b0010_0000, Some(5)),
            Choose(0b1010_1000, Some(7)),
        ],
    ),
    (
        "another use makes a place the newest",
        &[
            Use(&[3, 5, 3]),
            Choose(0b0010_1000, Some(5)),
            Use(&[5]),
            Choose(0b0010_1000, Some(3)),
        ],
    ),
    (
        "an emptied place goes before those that were used",
        &[
            Use(&[2, 1, 0]),
            Choose(0b0111, Some(2)),
            Empty(&[1]),
            Choose(0b0111, Some(1)),
            Choose(0b0101, Some(2)),
            Use(&[1]),
            Choose(0b0111, Some(2)),
            Choose(0b0011, Some(0)),
        ],
    ),
    (
        "a number from 16 on is no place",
        &[
            Use(&[16, 255, 31]),
            Empty(&[200]),
            Choose(ALL, Some(0)),
            Use(&[0]),
            Empty(&[16, 32]),
            Choose(0b0011, Some(1)),
            Choose(0b0001, Some(0)),
            Use(&[1, 16]),
            Choose(0b0011, Some(0)),
        ],
    ),
    (
        "all sixteen places are used",
        &[
            Use(&[15, 14, 13, 12, 11, 10, 9, 8, 7, 6, 5, 4, 3, 2, 1, 0]),
            Choose(ALL, Some(15)),
            Choose(0b0111_1111_1111_1111, Some(14)),
            Use(&[15]),
            Choose(ALL, Some(14)),
            Empty(&[7, 3]),
            Choose(ALL, Some(3)),
            Choose(0b1111_1111_1111_0111, Some(7)),
            Use(&[3]),
            Choose(ALL, Some(7)),
            Use(&[7]),
            Choose(ALL, Some(14)),
            Choose(0b1000_0000_1000_1000, Some(15)),
        ],
    ),
    (
        "a place is emptied twice, and one is emptied that was not used",
        &[
            Empty(&[4]),
            Choose(0b0101_0000, Some(4)),
            Use(&[4]),
            Choose(0b0101_0000, Some(6)),
            Empty(&[4, 4]),
            Choose(0b0101_0000, Some(4)),
            Use(&[6, 4]),
            Choose(0b0101_0000, Some(6)),
        ],
    ),
    (
        "only members count",
        &[
            Use(&[1, 2, 3]),
            Choose(0b1100, Some(2)),
            Choose(0b1000, Some(3)),
            Choose(0b1010, Some(1)),
            Choose(0, None),
            Choose(0b1110, Some(1)),
        ],
    ),
];

#[test]
fn oldest_use_goes_first(rt: HostRuntime) {
    follow_each(&rt, OldestUse::new, &RUNS);
}

// More uses than a count of 16 bits has numbers: one that wrapped or stood still would lose the order on the way.
#[test]
fn many_uses_keep_their_order(rt: HostRuntime) {
    let mut policy = OldestUse::new();
    for _ in 0..70_000 {
        policy.tell(Notice::Used(1));
        policy.tell(Notice::Used(0));
        assert_eq!(rt; policy.choose(0b0011), Some(1));
    }
}
