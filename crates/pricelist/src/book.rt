// Books of rows in any page store: written, copied, searched and changed.
// A change makes one price another, and a copy makes the pages of one store those of another.

ghost use Rattle.std.specs.Prelude.{◌≡◌, ◌^◌, ◌/◌, ◌<◌, ◌≤◌, length, min, IfOk, MatchResult, OnErr, OnOk};
ghost use Rattle.pricelist.specs.Books.{begins, copied, repriced, rows_of};
ghost use Rattle.std.specs.List.{flat_map, position};

use crate::cells::{CELL_BYTES, Cell};
use pages::{PAGE_BYTES, PageStore, StoreFault, export};
use std::alloc::Global;

// A row is an article's cell and its price's.
const ROW_BYTES: usize = 2 * CELL_BYTES;

const ROWS_PER_PAGE: usize = PAGE_BYTES / ROW_BYTES;

// A store's number for a page, which has 16 bits: no store has so many pages.
fn page_number(page: usize) -> Result<u16, StoreFault>
    ensures { MatchResult result (λ number. number ≡ page) (λ _. 2 ^ 16 ≤ page) }
{
    u16::try_from(page).map_err(|_| StoreFault::NoSuchPage)
}

// Writes a book's pages, from page 0 on. It fails only where the store has fewer.
#[tactic(auto, using(crate::proofs::BookLaws::copy_more))]
pub(crate) fn write_book<S: PageStore>(
    store: &mut S,
    book: &[[u8; PAGE_BYTES]],
) -> Result<(), StoreFault>
    ensures written { OnOk result (S.pages store.new ≡ copied book.now (S.pages store.old)) }
    ensures too_small { OnErr result (min (length (S.pages store.old)) (2 ^ 16) < length book.now) }
{
    for (page, bytes) in book.iter().enumerate() {
        store.write(page_number(page)?, bytes)?;
    }
    Ok(())
}

// Copies every page of one store into another. It fails only where the other has fewer.
#[tactic(auto, using(crate::proofs::BookLaws::copy_more))]
pub(crate) fn copy_book<A: PageStore, B: PageStore>(from: &A, to: &mut B) -> Result<(), StoreFault>
    ensures made { OnOk result (B.pages to.new ≡ copied (A.pages from.now) (B.pages to.old)) }
    ensures too_small { OnErr result (length (B.pages to.old) < length (A.pages from.now)) }
{
    for page in 0..from.count() {
        let mut buffer = [0; PAGE_BYTES];
        from.read(page, &mut buffer)?;
        to.write(page, &buffer)?;
    }
    Ok(())
}

// The whole book of a store, page after page.
pub(crate) fn book_of<S: PageStore>(heap: Global, store: &S) -> anyhow::Result<Vec<u8>>
    ensures { IfOk result (λ book. book.items ≡ flat_map (λ page. page) (S.pages store.now)) }
{
    let pages = usize::from(store.count());
    let mut book = vec![in heap; 0u8; pages * PAGE_BYTES]?;
    export(store, pages, &mut book)?;
    Ok(book)
}

// The first row that begins with an article's cell.
pub(crate) fn find(book: &[u8], article: Cell) -> Option<usize>
    ensures { result ≡ position (begins article.0) (rows_of book.now) }
{
    let (rows, _) = book.as_chunks::<ROW_BYTES>();
    rows.iter().position(|row| row.starts_with(&article.0))
}

// Makes a row's price another one, on its page. It fails only where the store has no such page, and alters nothing then.
pub(crate) fn change<S: PageStore>(store: &mut S, row: usize, price: Cell) -> Result<(), StoreFault>
    ensures changed { OnOk result (S.pages store.new ≡ repriced (S.pages store.old) row price.0) }
    ensures unaltered { OnErr result (S.pages store.new ≡ S.pages store.old) }
    ensures no_such_row { OnErr result (min (length (S.pages store.old)) (2 ^ 16) ≤ row / 4) }
{
    let page = page_number(row / ROWS_PER_PAGE)?;
    let at = row % ROWS_PER_PAGE * ROW_BYTES + CELL_BYTES;
    let mut buffer = [0; PAGE_BYTES];
    store.read(page, &mut buffer)?;
    buffer[at..at + CELL_BYTES].copy_from_slice(&price.0);
    store.write(page, &buffer)
}
