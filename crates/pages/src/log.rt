// A page store over lent memory that appends a record for each write, and compacts itself when every slot is filled.
// A page's last record is its content; a page without one is 64 zero bytes.
// The index of last records is part of the store, so that a read goes straight to its slot.

ghost use Rattle.std.specs.Prelude.{◌≡◌, ◌<◌, ◌≤◌, [], ◌∷◌, ◌++◌, length, slice_index_or, slice_set, OnOk};
ghost use Rattle.pages.specs.Log.{log_count, records_in, slots_in, Exact, Indexes, Known, LaidOut, RoomMade};
ghost use Rattle.pages.specs.Memory.{SameLoan};
ghost use Rattle.pages.specs.Records.{Content};
ghost use Rattle.pages.specs.Store.{Reads, Shaped, Writes};

use crate::fault::StoreFault;
use crate::memory::{count_pieces, piece, put_piece};
use crate::record::{Record, SLOT_BYTES};
use crate::slots::compact;
use crate::store::{MOST_PAGES, PAGE_BYTES, Page, PageStore, check_page};

// a cast, since a constant's value calls no `try_from`
const MOST_SLOTS: u16 = 2 * MOST_PAGES as u16;

#[derive(Drop)]
pub struct LogStore<'a> {
    // The memory itself and no type of slots around it: a lender is told by name what a field lends, and not what a field of a
    // field does.
    memory: &'a mut [u8],
    // how many slots hold a record, from the first on: a number beside the memory, since a vector would not be the lender's
    filled: u16,
    // for each page, the slot of its last record
    last: [Option<u16>; MOST_PAGES],
    ghost few: { filled ≤ slots_in (length memory.now) },
    // said here too, since an array's length is known where it is made and not to who holds the store
    ghost wide: { length last ≡ 4096 },
    // each filled slot holds the bytes of a record, of a page that the store has
    ghost exact: { Exact filled memory.now },
    ghost known: { Known (log_count (length memory.now)) filled memory.now },
    // the index is right
    ghost indexed: { Indexes last (records_in filled memory.now) },
}

impl<'a> LogStore<'a> {
    ghost use Rattle.pages.specs.LogView.{loan_of, memory_of, pages_of, records_of, IndexRight, LogWrites, SameMemory};

    // A store without records, whatever the memory holds.
    pub fn new(memory: &'a mut [u8]) -> LogStore<'a>
        ensures empty { records_of result ≡ [] }
        ensures holds { memory_of result ≡ memory.old }
        ensures lent { SameLoan memory.entry (loan_of result) }
    {
        LogStore {
            memory,
            filled: 0,
            last: no_records(),
        }
    }

    // How many records the log holds.
    #[tactic(auto, using(crate::proofs::SlotLaws::slot_laws, crate::proofs::LogLaws::log_laid))]
    pub fn records(&self) -> usize
        ensures value { result ≡ length (records_of self.now) }
        ensures layout { LaidOut (memory_of self.now) (records_of self.now) }
    {
        usize::from(self.filled)
    }

    fn slot_count(&self) -> u16
        ensures { result ≡ slots_in (length (memory_of self.now)) }
    {
        count_pieces::<SLOT_BYTES>(self.memory, MOST_SLOTS)
    }

    // Fills the buffer with a page.
    fn load(&self, page: u16, buffer: &mut Page) -> Result<(), StoreFault>
        ensures page { Reads (pages_of self.now) page buffer.old buffer.new result }
        ensures last { OnOk result (Content (records_of self.now) page buffer.new) }
        ensures index { OnOk result (IndexRight self.now) }
    {
        check_page(self.count(), page)?;
        *buffer = self.content(page);
        Ok(())
    }

    // A page's last record, which the index finds, or zeros.
    fn content(&self, page: u16) -> Page
        requires { page < length (pages_of self.now) }
        ensures page { result ≡ slice_index_or (pages_of self.now) page [] }
        ensures last { Content (records_of self.now) page result }
        ensures index { IndexRight self.now }
    {
        match self.last[usize::from(page)] {
            Some(slot) => Record::from(piece(self.memory, slot)).bytes,
            None => [0; PAGE_BYTES],
        }
    }

    // Makes a page these bytes.
    fn save(&mut self, page: u16, bytes: &Page) -> Result<(), StoreFault>
        ensures pages { Writes (pages_of self.old) page bytes.now (pages_of self.new) result }
        ensures records { LogWrites self.old page bytes.now self.new result }
        ensures memory { SameMemory self.old self.new }
    {
        check_page(self.count(), page)?;
        self.make_room();
        self.append(Record {
            page,
            bytes: *bytes,
        });
        Ok(())
    }

    // Compacts the log where every slot is filled, so that a page's next record has room.
    fn make_room(&mut self)
        ensures pages { pages_of self.new ≡ pages_of self.old }
        ensures records { RoomMade (slots_in (length (memory_of self.old))) (records_of self.old) (records_of self.new) }
        ensures room { 0 < length (pages_of self.old) → self.new.filled < slots_in (length (memory_of self.new)) }
        ensures memory { SameMemory self.old self.new }
    {
        if self.filled == self.slot_count() {
            self.filled = compact(self.memory, &mut self.last, self.filled);
        }
    }

    // Puts a record into the next slot.
    fn append(&mut self, latest: Record)
        requires there { latest.page < length (pages_of self.old) }
        requires room { self.old.filled < slots_in (length (memory_of self.old)) }
        ensures pages { pages_of self.new ≡ slice_set (pages_of self.old) latest.page latest.bytes }
        ensures records { records_of self.new ≡ records_of self.old ++ latest ∷ [] }
        ensures layout { LaidOut (memory_of self.new) (records_of self.new) }
        ensures memory { SameMemory self.old self.new }
    {
        put_piece(self.memory, self.filled, &latest.into());
        self.last[usize::from(latest.page)] = Some(self.filled);
        self.filled += 1;
    }
}

// The index of a log without records.
fn no_records() -> [Option<u16>; MOST_PAGES]
    ensures wide { length result ≡ 4096 }
    ensures indexed { Indexes result [] }
{
    [None; MOST_PAGES]
}

impl<'a> PageStore for LogStore<'a> {
    ghost use Rattle.pages.specs.LogView.{memory_of, pages_of, records_of, IndexRight, LogWrites, SameMemory};

    ghost pages = { pages_of };

    #[tactic(auto, using(crate::proofs::LogLaws::log_laws, crate::proofs::LogLaws::store_shaped))]
    fn count(&self) -> u16
        ensures value { result ≡ length (pages_of self.now) }
        ensures shape { Shaped (pages_of self.now) }
        ensures size { result ≡ log_count (length (memory_of self.now)) }
    {
        self.slot_count() / 2
    }

    fn read(&self, page: u16, buffer: &mut [u8]) -> Result<(), StoreFault>
        ensures page { Reads (pages_of self.now) page buffer.old buffer.new result }
        ensures last { OnOk result (Content (records_of self.now) page buffer.new) }
        ensures index { OnOk result (IndexRight self.now) }
    {
        let buffer = buffer.as_mut_array().ok_or(StoreFault::WrongLength)?;
        self.load(page, buffer)
    }

    fn write(&mut self, page: u16, bytes: &[u8]) -> Result<(), StoreFault>
        ensures pages { Writes (pages_of self.old) page bytes.now (pages_of self.new) result }
        ensures records { LogWrites self.old page bytes.now self.new result }
        ensures memory { SameMemory self.old self.new }
    {
        let bytes = bytes.as_array().ok_or(StoreFault::WrongLength)?;
        self.save(page, bytes)
    }
}
