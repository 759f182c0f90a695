// A record of the log store, a page's number and its bytes as they were written, and the slot of 66 bytes that holds it:
// the number, low byte first, and then the page.

ghost use Rattle.std.specs.Prelude.{◌≡◌};
ghost use Rattle.pages.specs.Log.{decoded, encoded};

use crate::store::{PAGE_BYTES, Page};

// the bytes of a slot
pub const SLOT_BYTES: usize = 66;

pub(crate) type Slot = [u8; SLOT_BYTES];

// where the page stands in a slot, behind its number
const PAGE_AT: usize = 2;

#[derive(Clone, Copy)]
pub(crate) struct Record {
    pub(crate) page: u16,
    pub(crate) bytes: Page,
}

impl From<&Slot> for Record {
    ghost from_gives = { λ slot r. r ≡ decoded slot.now };

    fn from(slot: &Slot) -> Record {
        let [low, high, ..] = *slot;
        Record {
            page: u16::from_le_bytes([low, high]),
            bytes: *slot.last_chunk().unwrap(),
        }
    }
}

impl From<Record> for Slot {
    ghost from_gives = { λ r slot. slot ≡ encoded r };

    fn from(record: Record) -> Slot {
        let mut slot = [0; SLOT_BYTES];
        slot[..PAGE_AT].copy_from_slice(&record.page.to_le_bytes());
        slot[PAGE_AT..].copy_from_slice(&record.bytes);
        slot
    }
}
