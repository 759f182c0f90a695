// Cells of 8 bytes that hold a word, filled up with spaces. A row of the list is two of them: an article and its price.
// A row has no type of its own: a change looks its article up before its price becomes a cell, and prints both as they stand.
// So a line is taken apart here and in `main`, by two calls of the library and with a message of its own: a function of ours
// would be those two calls again.

ghost use Rattle.std.specs.Prelude.{◌≡◌, ◌-◌, ◌%◌, ◌<◌, ◌≤◌, ◌++◌, length, replicate, vec_len, IfOk, MatchResult};

use anyhow::{Context, ensure};
use pages::PAGE_BYTES;
use std::alloc::Global;
use std::str::Utf8Error;

pub(crate) const CELL_BYTES: usize = 8;

#[derive(Clone, Copy)]
pub(crate) struct Cell(pub(crate) [u8; CELL_BYTES]);

impl TryFrom<&str> for Cell {
    type Error = anyhow::Error;

    // The cell of a word is its bytes, and spaces up to 8.
    ghost try_from_gives = { λ word r. MatchResult r
        (λ cell. (length word.now ≤ 8) × (cell.0 ≡ word.now ++ replicate (8 - length word.now) 32))
        (λ _. 8 < length word.now) };

    fn try_from(word: &str) -> anyhow::Result<Cell> {
        ensure!(word.len() <= CELL_BYTES, "a cell has room for eight bytes");
        let mut bytes = [b' '; CELL_BYTES];
        bytes[..word.len()].copy_from_slice(word.as_bytes());
        Ok(Cell(bytes))
    }
}

impl Cell {
    // What a cell shows: its bytes without the spaces behind them. It is no `Display`, since bytes that are no text are an error.
    pub(crate) fn text(&self) -> Result<&str, Utf8Error> {
        Ok(std::str::from_utf8(&self.0)?.trim_end())
    }
}

// The rows of a list, one for each line, filled up with spaces to whole pages.
pub(crate) fn rows(heap: Global, list: &str) -> anyhow::Result<Vec<u8>>
    ensures whole_pages { IfOk result (λ bytes. vec_len bytes % 64 ≡ 0) }
{
    let mut bytes = Vec::new(heap);
    for line in list.lines() {
        let (article, price) = line
            .split_once(' ')
            .context("a line of the list is an article and a price")?;
        bytes.extend_from_slice(&Cell::try_from(article)?.0)?;
        bytes.extend_from_slice(&Cell::try_from(price)?.0)?;
    }
    bytes.resize(bytes.len().next_multiple_of(PAGE_BYTES), b' ')?;
    Ok(bytes)
}
