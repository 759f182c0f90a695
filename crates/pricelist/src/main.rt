// A price list, kept as a book of pages: it is written into a flat store, copied into a log store, and changed in both.
// The log store is so small that the changes make it compact itself. At the end both books are exported and compared.
#![tactic(auto)]

mod book;
mod cells;

use anyhow::Context;
use book::{book_of, change, copy_book, find, write_book};
use cells::{CELL_BYTES, Cell, rows};
use pages::{FlatStore, LogStore, PAGE_BYTES, SLOT_BYTES};
use std::alloc::Global;
use std::fs;

// Room for four pages; the log store has two slots for each.
const FLAT_BYTES: usize = 4 * PAGE_BYTES;

const LOG_BYTES: usize = 8 * SLOT_BYTES;

fn main(rt: HostRuntime) -> anyhow::Result<()> {
    let prices = fs::read_to_string(&rt, "prices.txt")?;
    let changes = fs::read_to_string(&rt, "changes.txt")?;
    let mut flat_memory = [0; FLAT_BYTES];
    let mut log_memory = [0; LOG_BYTES];
    let mut books = Books {
        flat: FlatStore::new(&mut flat_memory),
        log: LogStore::new(&mut log_memory),
    };
    books.fill(&rt, &prices)?;
    for line in changes.lines() {
        books.apply(&rt, line)?;
    }
    books.compare(&rt)
}

// The same book, in a flat store and in a log store.
#[derive(Drop)]
struct Books<'a> {
    flat: FlatStore<'a>,
    log: LogStore<'a>,
}

impl<'a> Books<'a> {
    // Writes the list into the flat store, and copies the book into the log store.
    fn fill(&mut self, rt: &(impl Print + AllocGlobal), list: &str) -> anyhow::Result<()> {
        let bytes = rows(rt.alloc(), list)?;
        let (pages, _) = bytes.as_chunks::<PAGE_BYTES>();
        write_book(&mut self.flat, pages)?;
        println!(rt; "pages written to the flat store: {}", pages.len())?;
        copy_book(&self.flat, &mut self.log)?;
        println!(rt; "copied to the log store: {} records", self.log.records())?;
        Ok(())
    }

    // Changes one price in both books, and says so where the log was compacted.
    fn apply(&mut self, rt: &(impl Print + AllocGlobal), line: &str) -> anyhow::Result<()> {
        let (article, price) = line
            .split_once(' ')
            .context("a change is an article and a price")?;
        let book = book_of(rt.alloc(), &self.flat)?;
        let found = find(&book, Cell::try_from(article)?);
        let row = found.context("a change names an article that is not in the list")?;
        let new = Cell::try_from(price)?;
        let before = self.log.records();
        change(&mut self.flat, row, new)?;
        change(&mut self.log, row, new)?;
        let after = self.log.records();
        println!(rt; "{article} now {price}: {after} records")?;
        if after <= before {
            println!(rt; "the log was compacted: {before} records before, {after} after")?;
        }
        Ok(())
    }

    // Exports both books, compares them, and shows the first cells of two pages.
    fn compare(&self, rt: &(impl Print + AllocGlobal)) -> anyhow::Result<()> {
        let one = book_of(rt.alloc(), &self.flat)?;
        let other = book_of(rt.alloc(), &self.log)?;
        let agree = if one == other { "yes" } else { "no" };
        println!(rt; "the exports agree: {agree}")?;
        for page in [0, 2] {
            let cells = first_cells(rt.alloc(), &other, page)?;
            println!(rt; "page {page} begins: {cells}")?;
        }
        Ok(())
    }
}

// The first four cells of a page, as text.
fn first_cells(heap: Global, book: &[u8], page: u8) -> anyhow::Result<String> {
    let mut shown = String::new(heap);
    let (cells, _) = book.as_chunks::<CELL_BYTES>();
    let skipped = usize::from(page) * (PAGE_BYTES / CELL_BYTES);
    for bytes in cells.iter().skip(skipped).take(4) {
        // No `join`: each word is lent by a cell of its own, so there are no words side by side.
        if !shown.is_empty() {
            shown.push_str(" | ")?;
        }
        shown.push_str(Cell(*bytes).text()?)?;
    }
    Ok(shown)
}
