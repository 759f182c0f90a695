// How many pages a store has, for memories around each limit.

use pages::{FlatStore, LogStore, PageStore};
use std::process::Abort;
use std::test::Fail;

// Counts the pages of a store over a memory of each length.
fn check_counts<F: Fn(&mut [u8]) -> u16>(
    rt: &(impl Abort + AllocGlobal),
    sizes: &[(usize, u16)],
    count: F,
) -> Result<(), Fail>
    requires { F.IsAlwaysCallable count }
{
    for &(bytes, pages) in sizes {
        let mut memory = vec![in rt.alloc(); 0u8; bytes]?;
        assert_eq!(rt; count(&mut memory), pages, "{bytes} bytes");
    }
    Ok(())
}

// One test for each store, since a test is known by its name: its table of sizes, and how such a store is made.
#[test]
fn flat_store_counts_whole_pages_up_to_4096(rt: HostRuntime) -> Result<(), Fail> {
    let sizes = [
        (0, 0),
        (63, 0),
        (64, 1),
        (65, 1),
        (127, 1),
        (128, 2),
        (262_143, 4095),
        (262_144, 4096),
        (262_145, 4096),
        (262_208, 4096),
        (600_000, 4096),
    ];
    check_counts(&rt, &sizes, |memory| FlatStore::new(memory).count())
}

#[test]
fn log_store_counts_half_its_slots_up_to_8192(rt: HostRuntime) -> Result<(), Fail> {
    let sizes = [
        (0, 0),
        (65, 0),
        (66, 0),
        (131, 0),
        (132, 1),
        (197, 1),
        (198, 1),
        (264, 2),
        (540_606, 4095),
        (540_671, 4095),
        (540_672, 4096),
        (540_738, 4096),
        (700_000, 4096),
    ];
    check_counts(&rt, &sizes, |memory| {
        let store = LogStore::new(memory);
        assert_eq!(rt; store.records(), 0);
        store.count()
    })
}
