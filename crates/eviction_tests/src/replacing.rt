// A caller of a policy, as a cache is one: it promises, for every policy, which choice it asks for, which notices it then
// gives, and in which order.

ghost use Rattle.eviction_tests.specs.Replacing.{Replaces};

use eviction::{Notice, Policy};

// Gives up one of the places that may go, and uses it for another page.
pub(crate) fn replace<P: Policy>(policy: &mut P, among: u16) -> Option<u8>
    ensures { Replaces P.told P.chosen policy.old among result policy.new }
{
    let place = policy.choose(among)?;
    policy.tell(Notice::Emptied(place));
    policy.tell(Notice::Used(place));
    Some(place)
}
