// Exports of both stores, and of one that is no store of `pages`: the pages side by side, and which refusal answers a
// wrong length or too many pages.

use crate::helpers::{page_of, write_all};
use crate::one_page::OnePage;
use pages::StoreFault::{NoSuchPage, WrongLength};
use pages::{FlatStore, LogStore, PageStore, StoreFault, export};
use std::process::Abort;
use std::test::Fail;

// The last three: 2^58 pages, whose length a product of 64 bits would take for 0, and the largest number.
const CALLS: [(usize, usize, Result<(), StoreFault>); 12] = [
    (0, 0, Ok(())),
    (1, 64, Ok(())),
    (3, 192, Ok(())),
    (4, 256, Err(NoSuchPage)),
    (5000, 320_000, Err(NoSuchPage)),
    (2, 127, Err(WrongLength)),
    (2, 129, Err(WrongLength)),
    (4, 192, Err(WrongLength)),
    (0, 1, Err(WrongLength)),
    (288_230_376_151_711_744, 0, Err(WrongLength)),
    (288_230_376_151_711_745, 64, Err(WrongLength)),
    (18_446_744_073_709_551_615, 64, Err(WrongLength)),
];

// Exports a store whose pages 0, 1 and 2 are made of the bytes 10, 11 and 12.
fn exports<S: PageStore>(rt: &(impl Abort + AllocGlobal), store: &S) -> Result<(), Fail> {
    assert_eq!(rt; store.count(), 3);
    for (count, length, expected) in CALLS {
        let mut buffer = vec![in rt.alloc(); 99u8; length]?;
        assert_eq!(rt; export(store, count, &mut buffer), expected);
        let mut bytes = buffer.iter().enumerate();
        assert!(rt;
            bytes.all(|(at, &byte)| {
                usize::from(byte) == if expected.is_ok() { 10 + at / 64 } else { 99 }
            }),
            "an export has the pages side by side, and a refused one leaves the buffer"
        );
    }
    Ok(())
}

// One test for each store, since a test is known by its name: the checks are `exports`, and what is left differs.
#[test]
fn flat_store_is_exported(rt: HostRuntime) -> Result<(), Fail> {
    let mut memory = [0; 200];
    let mut store = FlatStore::new(&mut memory);
    write_all(&rt, &mut store, &[(1, 11), (0, 10), (2, 12)]);
    exports(&rt, &store)
}

#[test]
fn log_store_is_exported_by_its_last_records(rt: HostRuntime) -> Result<(), Fail> {
    let mut memory = [0; 400];
    let mut store = LogStore::new(&mut memory);
    write_all(
        &rt,
        &mut store,
        &[(2, 1), (1, 11), (0, 3), (2, 12), (0, 5), (0, 10)],
    );
    exports(&rt, &store)
}

#[test]
fn store_of_a_vendors_own_is_exported(rt: HostRuntime) {
    let mut store = OnePage::of(4);
    let mut buffer = page_of(0);
    assert_eq!(rt; export(&store, 1, &mut buffer), Ok(()));
    assert_eq!(rt; buffer, page_of(4));
    assert_eq!(rt; store.write(0, &page_of(5)), Ok(()));
    assert_eq!(rt; export(&store, 1, &mut buffer), Ok(()));
    assert_eq!(rt; buffer, page_of(5));
    assert_eq!(rt; export(&store, 2, &mut [0; 128]), Err(NoSuchPage));
}
