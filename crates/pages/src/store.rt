// A page store keeps numbered pages of 64 bytes each. How many there are never changes.
// What a store means is the list of its pages, so code that uses one is written and proved once for all stores.

ghost use Rattle.std.specs.Prelude.{◌≡◌, ◌<◌, List, length};
ghost use Rattle.pages.specs.Fault.{Answers};
ghost use Rattle.pages.specs.Store.{Page, Reads, Shaped, Writes};

use crate::fault::StoreFault;

// the bytes of a page
pub const PAGE_BYTES: usize = 64;

// a page's bytes
pub(crate) type Page = [u8; PAGE_BYTES];

// the most pages that a store has
pub const MOST_PAGES: usize = 4096;

// A page's number and its bytes are two parameters, since a caller names the one and lends the other. An impl that promises more
// than a clause here repeats the clause, as do the private calls under it, which make it true.
// The shape of the pages is promised by `count`, and is no law: a vendor would owe a proof of it, where the check finds the clause.
pub trait PageStore {
    // the pages, each by its bytes
    ghost pages: { Self → List Page };

    // How many pages there are.
    fn count(&self) -> u16
        ensures value { result ≡ length (pages self.now) }
        ensures shape { Shaped (pages self.now) };

    // Fills the buffer with a page.
    fn read(&self, page: u16, buffer: &mut [u8]) -> Result<(), StoreFault>
        ensures { Reads (pages self.now) page buffer.old buffer.new result };

    // Makes a page the bytes handed in.
    fn write(&mut self, page: u16, bytes: &[u8]) -> Result<(), StoreFault>
        ensures { Writes (pages self.old) page bytes.now (pages self.new) result };
}

// Refuses a page that a store with so many pages does not have.
pub(crate) fn check_page(count: u16, page: u16) -> Result<(), StoreFault>
    ensures { Answers (Unit {0}) (page < count) (Unit {0}) (Unit {0}) result }
{
    if page >= count {
        return Err(StoreFault::NoSuchPage);
    }
    Ok(())
}
