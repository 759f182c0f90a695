// Eviction policies: which of its sixteen places a cache gives up.
// Every choice is a member of the set that was asked for; the policies here also promise which one, and what they then keep.
#![tactic(auto)]

mod clock;
mod either_policy;
mod notice;
mod oldest_use;
mod places;
mod policy;

pub use clock::Clock;
pub use either::Either;
pub use notice::Notice;
pub use oldest_use::OldestUse;
pub use places::{PLACES, contains};
pub use policy::{Policy, tell_emptied};
