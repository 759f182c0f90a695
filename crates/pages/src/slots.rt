// The slots of a log store's memory, and how they are compacted: the last record of each page moves to the front, in their order.

ghost use Rattle.std.specs.Prelude.{◌≡◌, ◌*◌, ◌≤◌, length, drop};
ghost use Rattle.pages.specs.Log.{records_in, Exact, Indexes, Known};
ghost use Rattle.pages.specs.Records.{compacted};

use crate::memory::{piece, put_piece};
use crate::record::Record;
use crate::store::MOST_PAGES;

// Compacts the filled slots, and answers how many stay filled.
// `last` is the slot of each page's last record, before and after.
// It takes the fields of a store and not the store, whose invariants hold only once the loop is done; and it counts what it
// keeps, since it moves slots within lent memory, where there is no vector whose `retain` would do that.
pub(crate) fn compact(memory: &mut [u8], last: &mut [Option<u16>; MOST_PAGES], filled: u16) -> u16
    requires fits { 66 * filled ≤ length memory.old }
    requires known { Known (length last.old) filled memory.old }
    requires exact { Exact filled memory.old }
    requires indexed { Indexes last.old (records_in filled memory.old) }
    ensures records { records_in result memory.new ≡ compacted (records_in filled memory.old) }
    ensures exact { Exact result memory.new }
    ensures indexed { Indexes last.new (records_in result memory.new) }
    ensures wide { length last.new ≡ 4096 }
    ensures past { drop (66 * filled) memory.new ≡ drop (66 * filled) memory.old }
{
    let mut kept = 0;
    for slot in 0..filled {
        let filled_slot = piece(memory, slot);
        let page = usize::from(Record::from(filled_slot).page);
        if last[page] == Some(slot) {
            let bytes = *filled_slot;
            put_piece(memory, kept, &bytes);
            last[page] = Some(kept);
            kept += 1;
        }
    }
    kept
}
