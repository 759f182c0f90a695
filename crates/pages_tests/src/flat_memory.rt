// Where the flat store's pages lie in its memory, and that the bytes past the last page stay.

use crate::helpers::page_of;
use pages::StoreFault::NoSuchPage;
use pages::{FlatStore, PageStore};
use std::array;
use std::test::Fail;

#[test]
fn one_page_and_a_tail(rt: HostRuntime) {
    let mut memory = [3; 127];
    let mut store = FlatStore::new(&mut memory);
    assert_eq!(rt; store.write(0, &page_of(8)), Ok(()));
    let mut expected = [3; 127];
    expected[..64].fill(8);
    assert_eq!(rt; memory, expected);
}

#[test]
fn page_p_lies_at_byte_64_p(rt: HostRuntime) {
    // The cast is proved to lose nothing, where `try_from` would answer an error that cannot come.
    let mut memory: [u8; 197] = array::from_fn(|at| (at % 251) as u8);
    let mut expected = memory;
    let mut store = FlatStore::new(&mut memory);
    let mut buffer = page_of(0);
    assert_eq!(rt; store.read(2, &mut buffer), Ok(()));
    assert_eq!(rt; &buffer[..], &expected[128..192]);
    assert_eq!(rt; store.write(1, &page_of(255)), Ok(()));
    expected[64..128].fill(255);
    assert_eq!(rt; memory, expected);
}

#[test]
fn last_of_4096_pages(rt: HostRuntime) -> Result<(), Fail> {
    let mut memory = vec![in rt.alloc(); 1u8; 262_144 + 70]?;
    let mut store = FlatStore::new(&mut memory);
    assert_eq!(rt; store.write(4096, &page_of(2)), Err(NoSuchPage));
    assert_eq!(rt; store.write(4095, &page_of(2)), Ok(()));
    let mut expected = vec![in rt.alloc(); 1u8; 262_144 + 70]?;
    expected[262_080..262_144].fill(2);
    assert!(rt; memory == expected);
    Ok(())
}
