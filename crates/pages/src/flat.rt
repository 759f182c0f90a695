// A page store over lent memory in which page p lies at byte 64 × p: as many pages as fit, at most 4,096.
// The bytes past the last page are never altered.

ghost use Rattle.std.specs.Prelude.{◌≡◌, length, OnOk};
ghost use Rattle.pages.specs.Flat.{flat_count, loan_of, memory_of, pages_of, FlatWrites, SameMemory};
ghost use Rattle.pages.specs.Memory.{SameLoan};
ghost use Rattle.pages.specs.Pieces.{piece};
ghost use Rattle.pages.specs.Store.{Reads, Shaped, Writes};

use crate::fault::StoreFault;
use crate::memory::{count_pieces, piece, put_piece};
use crate::store::{MOST_PAGES, PAGE_BYTES, Page, PageStore, check_page};

// a cast, since a constant's value calls no `try_from`
const MOST: u16 = MOST_PAGES as u16;

#[derive(Drop)]
pub struct FlatStore<'a> {
    // The store has no model of its pages, since what a lender is told hangs on this reference, which a value cannot hold.
    memory: &'a mut [u8],
}

impl<'a> FlatStore<'a> {
    // The store of the pages that the memory holds as it stands. It goes on using this memory, so that the lender knows
    // what the memory holds once the store is gone.
    pub fn new(memory: &'a mut [u8]) -> FlatStore<'a>
        ensures holds { memory_of result ≡ memory.old }
        ensures lent { SameLoan memory.entry (loan_of result) }
    {
        FlatStore { memory }
    }

    // Fills the buffer with a page.
    #[tactic(auto, using(crate::proofs::FlatLaws::flat_laws))]
    fn load(&self, page: u16, buffer: &mut Page) -> Result<(), StoreFault>
        ensures page { Reads (pages_of self.now) page buffer.old buffer.new result }
        ensures bytes { OnOk result (buffer.new ≡ piece 64 (memory_of self.now) page) }
    {
        check_page(self.count(), page)?;
        *buffer = *piece(self.memory, page);
        Ok(())
    }

    // Makes a page these bytes.
    #[tactic(auto, using(crate::proofs::FlatLaws::flat_laws))]
    fn save(&mut self, page: u16, bytes: &Page) -> Result<(), StoreFault>
        ensures pages { Writes (pages_of self.old) page bytes.now (pages_of self.new) result }
        ensures bytes { FlatWrites self.old page bytes.now self.new result }
        ensures memory { SameMemory self.old self.new }
    {
        check_page(self.count(), page)?;
        put_piece(self.memory, page, bytes);
        Ok(())
    }
}

// `read` and `write` begin as in the log store, by the line that turns bytes into a page's array. That line is in no body of the
// trait's: each store's contract says more than the trait's, which a body there could not.
// `SameMemory` stands in the contract of each call that writes, since it relates the store before and after, which no type does.
impl<'a> PageStore for FlatStore<'a> {
    ghost pages = { pages_of };

    #[tactic(auto, using(crate::proofs::FlatLaws::flat_laws, crate::proofs::FlatLaws::flat_shaped))]
    fn count(&self) -> u16
        ensures value { result ≡ length (pages_of self.now) }
        ensures shape { Shaped (pages_of self.now) }
        ensures size { result ≡ flat_count (length (memory_of self.now)) }
    {
        count_pieces::<PAGE_BYTES>(self.memory, MOST)
    }

    fn read(&self, page: u16, buffer: &mut [u8]) -> Result<(), StoreFault>
        ensures page { Reads (pages_of self.now) page buffer.old buffer.new result }
        ensures bytes { OnOk result (buffer.new ≡ piece 64 (memory_of self.now) page) }
    {
        let buffer = buffer.as_mut_array().ok_or(StoreFault::WrongLength)?;
        self.load(page, buffer)
    }

    fn write(&mut self, page: u16, bytes: &[u8]) -> Result<(), StoreFault>
        ensures pages { Writes (pages_of self.old) page bytes.now (pages_of self.new) result }
        ensures bytes { FlatWrites self.old page bytes.now self.new result }
        ensures memory { SameMemory self.old self.new }
    {
        let bytes = bytes.as_array().ok_or(StoreFault::WrongLength)?;
        self.save(page, bytes)
    }
}
