// A run of a policy: what it is told and what it is asked, in turn, with the answers that it owes.

use eviction::{Notice, Policy};
use std::process::Abort;

// every place
pub(crate) const ALL: u16 = 0xffff;

// A step is data and no closure, so that a table of runs is a constant that reads like the rules. `Use` and `Empty` stand
// beside `Notice`, since a row tells of many places at once: as a list of notices it would not read like the rules.
#[derive(Clone, Copy)]
pub(crate) enum Step {
    // these places are used, one after the other
    Use(&'static [u8]),
    // these places are emptied, one after the other
    Empty(&'static [u8]),
    // asked to choose among a set, the policy answers this place
    Choose(u16, Option<u8>),
}

// Gives a policy the same notice of each of these places.
fn tell_each<P: Policy, F: Fn(u8) -> Notice>(policy: &mut P, places: &[u8], notice: F)
    requires { F.IsAlwaysCallable notice }
{
    for place in places {
        policy.tell(notice(*place));
    }
}

// Takes a policy through a run; `what` names the run where an answer is another one.
pub(crate) fn follow<P: Policy>(rt: &impl Abort, policy: &mut P, what: &str, run: &[Step]) {
    for step in run {
        match *step {
            Step::Use(places) => tell_each(policy, places, Notice::Used),
            Step::Empty(places) => tell_each(policy, places, Notice::Emptied),
            Step::Choose(among, expected) => {
                assert_eq!(rt; policy.choose(among), expected, "{what}");
            }
        }
    }
}

// Takes a new policy through each of these runs.
pub(crate) fn follow_each<P: Policy + Drop, F: Fn() -> P>(
    rt: &impl Abort,
    new: F,
    runs: &[(&str, &[Step])],
)
    requires { F.IsAlwaysCallable new }
{
    for (what, run) in runs {
        follow(rt, &mut new(), what, run);
    }
}
