// The log store's records as they stand in its memory, before and after it compacts itself.

use crate::helpers::{check_slots, page_of, write_all};
use pages::StoreFault::NoSuchPage;
use pages::{LogStore, PageStore};
use std::process::Abort;
use std::test::Fail;

// Compares each page with what was last written to it, or with zeros.
fn check_pages(rt: &impl Abort, store: &LogStore<'_>, writes: &[(u16, u8)]) {
    for page in 0..store.count() {
        let last = writes.iter().rev().find(|(written, _)| *written == page);
        let mut buffer = page_of(255);
        assert_eq!(rt; store.read(page, &mut buffer), Ok(()));
        assert_eq!(rt; buffer, page_of(last.map_or(0, |(_, byte)| *byte)));
    }
}

// Writes to a log of so many slots, whose memory ends in 30 bytes more, and compares pages, records and those bytes.
fn case(
    rt: &(impl Abort + AllocGlobal),
    slots: u8,
    writes: &[(u16, u8)],
    records: &[(u16, u8)],
) -> Result<(), Fail> {
    let used = 66 * usize::from(slots);
    let mut memory = vec![in rt.alloc(); 170u8; used + 30]?;
    let mut store = LogStore::new(&mut memory);
    write_all(rt, &mut store, writes);
    assert_eq!(rt; store.records(), records.len());
    check_pages(rt, &store, writes);
    check_slots(rt, &memory, records);
    let mut tail = memory.iter().skip(used);
    assert!(rt; tail.all(|&byte| byte == 170));
    Ok(())
}

#[test]
fn full_log_keeps_the_last_record_of_each_page(rt: HostRuntime) -> Result<(), Fail> {
    // without records, and with every slot filled but nothing compacted yet
    case(&rt, 4, &[], &[])?;
    case(
        &rt,
        4,
        &[(1, 1), (0, 2), (1, 3), (1, 4)],
        &[(1, 1), (0, 2), (1, 3), (1, 4)],
    )?;
    // pages rewritten in mixed order: the records kept stand in their order, and then the new one
    case(
        &rt,
        6,
        &[(2, 1), (0, 2), (2, 3), (1, 4), (0, 5), (2, 6), (1, 7)],
        &[(1, 4), (0, 5), (2, 6), (1, 7)],
    )?;
    // compacted twice
    case(
        &rt,
        6,
        &[
            (2, 1),
            (0, 2),
            (2, 3),
            (1, 4),
            (0, 5),
            (2, 6),
            (1, 7),
            (1, 8),
            (1, 9),
            (0, 10),
        ],
        &[(0, 5), (2, 6), (1, 9), (0, 10)],
    )?;
    // page 1 has no record
    case(
        &rt,
        6,
        &[(2, 1), (2, 2), (0, 3), (2, 4), (0, 5), (0, 6), (2, 7)],
        &[(2, 4), (0, 6), (2, 7)],
    )?;
    // an odd slot is filled before the log is compacted
    case(
        &rt,
        5,
        &[(0, 1), (1, 2), (0, 3), (0, 4), (0, 5), (0, 6)],
        &[(1, 2), (0, 5), (0, 6)],
    )?;
    // the first record is already where it is moved to
    case(
        &rt,
        4,
        &[(1, 1), (0, 2), (0, 3), (0, 4), (0, 5)],
        &[(1, 1), (0, 4), (0, 5)],
    )?;
    // one page
    case(&rt, 2, &[(0, 1), (0, 2), (0, 3), (0, 4)], &[(0, 3), (0, 4)])
}

#[test]
fn page_numbers_stand_low_byte_first(rt: HostRuntime) -> Result<(), Fail> {
    let mut memory = vec![in rt.alloc(); 238u8; 66 * 600]?;
    let mut store = LogStore::new(&mut memory);
    write_all(&rt, &mut store, &[(299, 5), (0, 6), (256, 7)]);
    assert!(rt; memory.starts_with(&[43, 1]));
    check_slots(&rt, &memory, &[(299, 5), (0, 6), (256, 7)]);
    Ok(())
}

#[test]
fn largest_log(rt: HostRuntime) -> Result<(), Fail> {
    let mut memory = vec![in rt.alloc(); 9u8; 66 * 8192 + 100]?;
    let mut store = LogStore::new(&mut memory);
    assert_eq!(rt; store.write(4096, &page_of(1)), Err(NoSuchPage));
    for _ in 0..4096 {
        write_all(&rt, &mut store, &[(4095, 1), (7, 2)]);
    }
    assert_eq!(rt; store.records(), 8192);
    write_all(&rt, &mut store, &[(4095, 3)]);
    assert_eq!(rt; store.records(), 3);
    check_pages(&rt, &store, &[(4095, 1), (7, 2), (4095, 3)]);
    check_slots(&rt, &memory, &[(4095, 1), (7, 2), (4095, 3)]);
    let mut tail = memory.iter().skip(66 * 8192);
    assert!(rt; tail.all(|&byte| byte == 9));
    Ok(())
}
