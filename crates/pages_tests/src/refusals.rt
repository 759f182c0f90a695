// Which refusal answers a wrong buffer, a wrong page and both at once, and that a refused call alters nothing.

use crate::helpers::{check_slots, page_of, write_all};
use pages::StoreFault::{NoSuchPage, WrongLength};
use pages::{FlatStore, LogStore, PageStore, StoreFault};
use std::process::Abort;
use std::test::Fail;

// Both stores have two pages. The length is looked at first, then the page.
const CALLS: [(usize, u16, Result<(), StoreFault>); 9] = [
    (0, 0, Err(WrongLength)),
    (63, 1, Err(WrongLength)),
    (65, 0, Err(WrongLength)),
    (128, 0, Err(WrongLength)),
    (63, 2, Err(WrongLength)),
    (65, 65535, Err(WrongLength)),
    (64, 2, Err(NoSuchPage)),
    (64, 65535, Err(NoSuchPage)),
    (64, 1, Ok(())),
];

// Reads and writes a store with a buffer of each length, and compares what it answers.
fn refuses<S: PageStore>(rt: &(impl Abort + AllocGlobal), store: &mut S) -> Result<(), Fail> {
    assert_eq!(rt; store.count(), 2);
    for (length, page, expected) in CALLS {
        let mut buffer = vec![in rt.alloc(); 9u8; length]?;
        assert_eq!(rt; store.write(page, &buffer), expected, "write");
        assert_eq!(rt; store.read(page, &mut buffer), expected, "read");
        assert!(rt;
            buffer.iter().all(|&byte| byte == 9),
            "a refused read leaves the buffer, and the accepted one finds what was written"
        );
    }
    let mut buffer = page_of(1);
    assert_eq!(rt; store.read(0, &mut buffer), Ok(()));
    assert_eq!(rt; buffer, page_of(0), "no refused write has reached a page");
    Ok(())
}

// One test for each store, since a test is known by its name: the checks are `refuses`, and what is left differs.
#[test]
fn flat_store_refuses_by_length_first(rt: HostRuntime) -> Result<(), Fail> {
    let mut memory = [0; 130];
    refuses(&rt, &mut FlatStore::new(&mut memory))
}

#[test]
fn log_store_refuses_by_length_first(rt: HostRuntime) -> Result<(), Fail> {
    let mut memory = [7; 270];
    refuses(&rt, &mut LogStore::new(&mut memory))
}

#[test]
fn refusals_have_their_numbers(rt: HostRuntime) {
    assert_eq!(rt; WrongLength.number(), 2);
    assert_eq!(rt; NoSuchPage.number(), 3);
}

#[test]
fn refused_write_does_not_compact_a_full_log(rt: HostRuntime) {
    let mut memory = [0; 4 * 66];
    let mut store = LogStore::new(&mut memory);
    let writes = [(0, 1), (0, 2), (0, 3), (0, 4)];
    write_all(&rt, &mut store, &writes);
    assert_eq!(rt; store.write(0, &[9; 63]), Err(WrongLength));
    assert_eq!(rt; store.write(2, &page_of(9)), Err(NoSuchPage));
    assert_eq!(rt; store.records(), 4);
    check_slots(&rt, &memory, &writes);
}

#[test]
fn log_store_of_one_slot_has_no_page(rt: HostRuntime) {
    let mut memory = [7; 131];
    let mut store = LogStore::new(&mut memory);
    assert_eq!(rt; store.count(), 0);
    assert_eq!(rt; store.write(0, &page_of(1)), Err(NoSuchPage));
    assert_eq!(rt; store.read(0, &mut page_of(1)), Err(NoSuchPage));
    assert_eq!(rt; store.write(0, &[1; 63]), Err(WrongLength));
    assert_eq!(rt; store.records(), 0);
    assert_eq!(rt; memory, [7; 131]);
}
