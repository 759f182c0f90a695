// An eviction policy says which place of a cache to give up. It is told what happens to the places, and chooses among those
// that may go. Whoever adds a policy shows that its choice is a member of the set, and no more: its state is its own affair.

ghost use Rattle.std.specs.Prelude.{⊤, ◌≡◌, ℕ, Option as Maybe};
ghost use Rattle.eviction.specs.declared.notice.Notice.{Notice};
ghost use Rattle.eviction.specs.declared.notice.Notice.TheVariants.{Emptied};
ghost use Rattle.eviction.specs.Policy.{Chooses, ToldEmptied};
ghost use Rattle.eviction.specs.Places.{Member};

use crate::notice::Notice;
use crate::places::{PLACES, contains};

pub trait Policy {
    // What a notice does to the policy. A policy that leaves this out says nothing, and its callers can still promise which
    // notices they give, and in which order.
    ghost told: { Self → Notice → Self → Type 0 } = { λ _ _ _. ⊤ };

    // what a choice among a set does to the policy, and which place it chooses
    ghost chosen: { Self → ℕ → Maybe ℕ → Self → Type 0 } = { λ _ _ _ _. ⊤ };

    // Takes notice of a use or an emptying.
    fn tell(&mut self, notice: Notice)
        ensures { told self.old notice self.new };

    // Picks a member of the set; no place if there is none.
    // The set is a plain number, since by the rules a policy gets a 16-bit set, in which bit k stands for place k.
    // An impl that promises more has to repeat both clauses, as do the private calls under it; each names a whole rule.
    fn choose(&mut self, among: u16) -> Option<u8>
        ensures member { Chooses among result }
        ensures after { chosen self.old among result self.new };
}

// Tells a policy that the places of a set were emptied: once each, in ascending order.
pub fn tell_emptied<P: Policy>(policy: &mut P, places: u16)
    ensures { ToldEmptied P.told policy.old (Member places) policy.new }
{
    // A `filter` of the places was tried, but a loop over one in a generic function gets no proof.
    for place in 0..PLACES {
        tell_if_member(policy, places, place);
    }
}

// Tells a policy that a place was emptied, if it is in the set.
fn tell_if_member<P: Policy>(policy: &mut P, places: u16, place: u8)
    ensures member { Member places place → P.told policy.old (Emptied place) policy.new }
    ensures other { (Member places place → ⊥) → policy.new ≡ policy.old }
{
    if contains(places, place) {
        policy.tell(Notice::Emptied(place));
    }
}
