// Numbered pages of 64 bytes, the stores that keep them in lent memory, and their export.
// Every call answers for all arguments: it does what its contract says, or refuses and alters nothing.
#![tactic(auto)]

mod book;
mod fault;
mod flat;
mod log;
mod memory;
mod record;
mod slots;
mod store;

pub use book::export;
pub use fault::StoreFault;
pub use flat::FlatStore;
pub use log::LogStore;
pub use record::SLOT_BYTES;
pub use store::{MOST_PAGES, PAGE_BYTES, PageStore};
