// One of two policies, so that caches with different policies can stand in one list.
// What it is told goes to the policy that it holds, and that policy's choice is its choice.

ghost use Rattle.either.specs.Either.{SameSide};

use crate::notice::Notice;
use crate::policy::Policy;
use either::Either;

// Both arms read alike, but each calls another type's method, so they stay two; a must-fail edit breaks one arm alone.
impl<A: Policy, B: Policy> Policy for Either<A, B> {
    ghost told = { λ p n q.
        SameSide (λ a a'. A.told a n a') (λ b b'. B.told b n b') p q };

    ghost chosen = { λ p among r q.
        SameSide (λ a a'. A.chosen a among r a') (λ b b'. B.chosen b among r b') p q };

    fn tell(&mut self, notice: Notice) {
        match self {
            Either::Left(policy) => policy.tell(notice),
            Either::Right(policy) => policy.tell(notice),
        }
    }

    fn choose(&mut self, among: u16) -> Option<u8> {
        match self {
            Either::Left(policy) => policy.choose(among),
            Either::Right(policy) => policy.choose(among),
        }
    }
}
