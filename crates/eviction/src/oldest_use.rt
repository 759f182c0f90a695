// The policy of oldest use, also called least recently used: it gives up the member that was used longest ago, but before it
// one whose latest notice was no use. It keeps the order of the last uses, so there is no counter that could overflow, and its
// contracts speak of that order: each call says what it is then, and a choice was used longest ago of all members, whatever
// the policy was told since it was new.

ghost use Rattle.std.specs.Prelude.{◌≡◌, ◌<◌, ◌≤◌, ◌↔◌, ◌==◌, [], ◌∷◌, ◌++◌, Contains, IsTrue};
ghost use Rattle.eviction.specs.declared.notice.Notice.TheVariants.{Used};
ghost use Rattle.eviction.specs.Order.{without, FirstIn, FirstToGo, Fresh, IsOrder, Lowest};
ghost use Rattle.eviction.specs.Policy.{Chooses};
ghost use Rattle.std.specs.List.{position};

use crate::notice::Notice;
use crate::places::{PLACES, PLACES_LEN, contains};
use crate::policy::Policy;
use arrayvec::ArrayVec;

#[derive(Drop)]
pub struct OldestUse {
    // the places whose latest notice was a use, by that use, the oldest first
    order: ArrayVec<u8, PLACES_LEN>,
    ghost sound: { IsOrder order.items },
}

impl OldestUse {
    ghost use Rattle.eviction.specs.OldestUse.{order_after, order_of, TakesLongestAgo};

    // No place was used yet.
    pub fn new() -> OldestUse
        ensures { order_of result ≡ [] }
    {
        OldestUse {
            order: ArrayVec::new(),
        }
    }

    // Where a place stands in the order.
    fn index_of(&self, place: u8) -> Option<usize>
        ensures { result ≡ position (λ other. other == place) (order_of self.now) }
    {
        self.order.iter().position(|other| *other == place)
    }

    // Takes a place out of the order, if it is in it. It stands there once, so it is looked for and removed: a `retain` was
    // tried, and moved each place that stays.
    fn forget(&mut self, place: u8)
        ensures order { order_of self.new ≡ without place (order_of self.old) }
        ensures absent { Contains (order_of self.new) place → ⊥ }
        ensures ignored { 16 ≤ place → order_of self.new ≡ order_of self.old }
    {
        if let Some(at) = self.index_of(place) {
            self.order.remove(at);
        }
    }

    // Puts a place that is not in the order at its end.
    fn append(&mut self, place: u8)
        requires known { place < 16 }
        requires absent { Contains (order_of self.old) place → ⊥ }
        ensures { order_of self.new ≡ order_of self.old ++ place ∷ [] }
    {
        self.order.push(place);
    }

    // Moves a place to the end of the order; a number from 16 on names none.
    fn renew(&mut self, place: u8)
        ensures order { order_of self.new ≡ order_after (Used place) (order_of self.old) }
        ensures ignored { 16 ≤ place → order_of self.new ≡ order_of self.old }
    {
        if place < PLACES {
            self.forget(place);
            self.append(place);
        }
    }

    // The lowest member of a set that is not in the order. It goes by a loop, whose order a must-fail edit turns round: where it
    // went by a `find`, that edit was refused for its form, as was the same form with the right order.
    fn lowest_fresh(&self, among: u16) -> Option<u8>
        ensures { Lowest (Fresh (order_of self.now) among) result }
    {
        let order = self.order.as_slice();
        for place in 0..PLACES {
            if is_fresh(order, among, place) {
                return Some(place);
            }
        }
        None
    }

    // The member of a set that stands first in the order.
    fn first_in(&self, among: u16) -> Option<u8>
        ensures { FirstIn (order_of self.now) among result }
    {
        self.order
            .iter()
            .copied()
            .find(|place| contains(among, *place))
    }

    // The member that was used longest ago: the lowest that is not in the order, else the first in it.
    #[tactic(auto, using(crate::proofs::LastUses::takes_longest_ago))]
    fn oldest(&self, among: u16) -> Option<u8>
        ensures member { Chooses among result }
        ensures first { FirstToGo (order_of self.now) among result }
        ensures longest_ago { TakesLongestAgo self.now among result }
    {
        self.lowest_fresh(among).or_else(|| self.first_in(among))
    }
}

// Whether a place is a member of a set and not in an order, which the caller takes out of the policy once for all places.
fn is_fresh(order: &[u8], among: u16, place: u8) -> bool
    ensures { IsTrue result ↔ Fresh order.now among place }
{
    contains(among, place) && !order.contains(&place)
}

impl Policy for OldestUse {
    ghost use Rattle.eviction.specs.OldestUse.{Chosen, TakesLongestAgo, Told};

    ghost told = { Told };

    ghost chosen = { Chosen };

    fn tell(&mut self, notice: Notice) {
        match notice {
            Notice::Used(place) => self.renew(place),
            Notice::Emptied(place) => self.forget(place),
        }
    }

    fn choose(&mut self, among: u16) -> Option<u8>
        ensures member { Chooses among result }
        ensures after { Chosen self.old among result self.new }
        ensures longest_ago { TakesLongestAgo self.old among result }
    {
        self.oldest(among)
    }
}
