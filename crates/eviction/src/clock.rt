// The clock, or second chance: a hand goes round the sixteen places, and a place that was used has a mark, which makes the
// hand pass it once. The hand and the marks, its face, are all that it keeps, and each call says what they are then: a choice
// is the member at which the hand stops, and who that is follows from the face before.

ghost use Rattle.std.specs.Prelude.{◌≡◌, ◌<◌, ◌≤◌, false, length, replicate, slice_index_or, slice_set};
ghost use Rattle.eviction.specs.Policy.{Chooses};

use crate::notice::Notice;
use crate::places::{PLACES, PLACES_LEN, contains};
use crate::policy::Policy;
use std::mem::replace;

#[derive(Drop)]
pub struct Clock {
    // the place that is looked at next
    hand: u8,
    // for each place, whether it was used since it was last emptied and since the hand last cleared its mark
    marks: [bool; PLACES_LEN],
    ghost round: { hand < 16 },
    ghost wide: { length marks ≡ 16 },
}

impl Clock {
    ghost use Rattle.eviction.specs.Clock.{face_of, next, Chosen, GivesSecondChance};

    // The hand is at place 0, and no place has a mark.
    pub fn new() -> Clock
        ensures { face_of result ≡ record { hand = 0; marks = replicate 16 false } }
    {
        Clock {
            hand: 0,
            marks: [false; PLACES_LEN],
        }
    }

    // Moves the hand one place further, and answers the place that it leaves.
    fn advance(&mut self) -> u8
        ensures place { result ≡ self.old.hand }
        ensures hand { self.new.hand ≡ next self.old.hand }
        ensures marks { self.new.marks ≡ self.old.marks }
    {
        let place = self.hand;
        self.hand = (place + 1) % PLACES;
        place
    }

    // Clears the mark of a place, and answers whether it was set.
    fn unmark(&mut self, place: u8) -> bool
        requires { place < 16 }
        ensures was { result ≡ slice_index_or self.old.marks place false }
        ensures hand { self.new.hand ≡ self.old.hand }
        ensures marks { self.new.marks ≡ slice_set self.old.marks place false }
    {
        replace(&mut self.marks[usize::from(place)], false)
    }

    // Sets or clears the mark of a place; a number from 16 on names none.
    fn mark(&mut self, place: u8, used: bool)
        ensures hand { self.new.hand ≡ self.old.hand }
        ensures marks { self.new.marks ≡ slice_set self.old.marks place used }
        ensures ignored { 16 ≤ place → self.new.marks ≡ self.old.marks }
    {
        if place < PLACES {
            self.marks[usize::from(place)] = used;
        }
    }

    // Goes round until the hand takes a member.
    fn sweep(&mut self, among: u16) -> Option<u8>
        ensures member { Chooses among result }
        ensures after { Chosen (face_of self.old) among result (face_of self.new) }
        ensures second_chance { GivesSecondChance (face_of self.old) among result
            (face_of self.new) }
    {
        // Two circles are enough, since the first leaves no member marked. Where there is no member, they bring the hand
        // back to its place. As a `find_map` it was tried: its closure hides from the proof what each step changes.
        for _step in 0..2 * PLACES {
            let place = self.advance();
            if contains(among, place) && !self.unmark(place) {
                return Some(place);
            }
        }
        None
    }
}

impl Policy for Clock {
    ghost use Rattle.eviction.specs.Clock.{face_of, Chosen, GivesSecondChance, Told};

    ghost told = { λ p n q. Told (face_of p) n (face_of q) };

    ghost chosen = { λ p among r q. Chosen (face_of p) among r (face_of q) };

    fn tell(&mut self, notice: Notice) {
        match notice {
            Notice::Used(place) => self.mark(place, true),
            Notice::Emptied(place) => self.mark(place, false),
        }
    }

    fn choose(&mut self, among: u16) -> Option<u8>
        ensures member { Chooses among result }
        ensures after { Chosen (face_of self.old) among result (face_of self.new) }
        ensures second_chance { GivesSecondChance (face_of self.old) among result
            (face_of self.new) }
    {
        self.sweep(among)
    }
}
