// Many pages at once: an export copies the first pages of any store into one buffer, or leaves the buffer as it was.

ghost use Rattle.std.specs.Prelude.{◌≡◌, ◌*◌, ◌≤◌, length};
ghost use Rattle.pages.specs.Store.{Exports};

use crate::fault::StoreFault;
use crate::store::{PAGE_BYTES, PageStore};

// Fills the buffer with the first `count` pages of a store.
pub fn export<S: PageStore>(store: &S, count: usize, buffer: &mut [u8]) -> Result<(), StoreFault>
    ensures { Exports (S.pages store.now) count buffer.old buffer.new result }
{
    if count.checked_mul(PAGE_BYTES) != Some(buffer.len()) {
        return Err(StoreFault::WrongLength);
    }
    let pages = store.count();
    match u16::try_from(count) {
        Ok(count) if count <= pages => copy_pages(store, count, buffer),
        _ => Err(StoreFault::NoSuchPage),
    }
}

// It goes by ranges; `chunks_exact_mut` was tried, but once such a loan of parts is over, a proof knows the buffer's length and no
// longer its bytes.
fn copy_pages<S: PageStore>(store: &S, count: u16, buffer: &mut [u8]) -> Result<(), StoreFault>
    requires fits { length buffer.old ≡ 64 * count }
    requires there { count ≤ length (S.pages store.now) }
    ensures { Exports (S.pages store.now) count buffer.old buffer.new result }
{
    for page in 0..count {
        let at = PAGE_BYTES * usize::from(page);
        store.read(page, &mut buffer[at..at + PAGE_BYTES])?;
    }
    Ok(())
}
