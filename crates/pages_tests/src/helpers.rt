// What the tests share: pages of one byte, written and found again in a log's slots.

use pages::PageStore;
use std::process::Abort;

// A page whose every byte is the same.
pub(crate) fn page_of(byte: u8) -> [u8; 64] {
    [byte; 64]
}

// Writes a page made of one byte for each pair of a page and a byte.
pub(crate) fn write_all<S: PageStore>(rt: &impl Abort, store: &mut S, writes: &[(u16, u8)]) {
    for &(page, byte) in writes {
        assert_eq!(rt; store.write(page, &page_of(byte)), Ok(()));
    }
}

// Compares the first slots of a log's memory with the records of such pages: the page's number, low byte first, and its bytes.
// The number is worked out here, and not by the library's call that the store takes it apart with.
pub(crate) fn check_slots(rt: &impl Abort, memory: &[u8], records: &[(u16, u8)]) {
    let (slots, _) = memory.as_chunks::<66>();
    assert!(rt; records.len() <= slots.len());
    for (slot, &(page, byte)) in slots.iter().zip(records) {
        let [low, high, ..] = *slot;
        assert_eq!(rt; u16::from(low) + 256 * u16::from(high), page);
        assert!(rt; slot[2..].iter().all(|&found| found == byte));
    }
}
