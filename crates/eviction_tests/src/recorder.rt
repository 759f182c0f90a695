// A policy that is none of ours: it gives up the lowest place, and writes down what it is told.
// That its choice is a member of the set is all that it shows, since the trait asks for no more.

use arrayvec::ArrayVec;
use eviction::{Notice, PLACES, Policy, contains};

// how many notices it writes down: more than there are places, so that one too many would show
const ROOM: usize = 20;

#[derive(Drop)]
pub(crate) struct Recorder {
    // an `Option` each, since an unused place holds a default, and a notice has none
    heard: ArrayVec<Option<Notice>, ROOM>,
}

impl Recorder {
    pub(crate) fn new() -> Recorder {
        Recorder {
            heard: ArrayVec::new(),
        }
    }

    // what it was told, in the order in which it was told
    pub(crate) fn heard(&self) -> &[Option<Notice>] {
        &self.heard
    }
}

impl Policy for Recorder {
    fn tell(&mut self, notice: Notice) {
        if !self.heard.is_full() {
            self.heard.push(Some(notice));
        }
    }

    fn choose(&mut self, among: u16) -> Option<u8> {
        (0..PLACES).find(|place| contains(among, *place))
    }
}
