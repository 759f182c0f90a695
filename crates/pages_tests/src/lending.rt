// Memory that was lent to a store, once the store is gone: what the contracts of the stores tell the lender.
// One function for each store: what their memory then holds differs, and code for any store knows its pages alone.

ghost use Rattle.std.specs.Prelude.{◌≡◌, ◌*◌, take, OnErr, OnOk};
ghost use Rattle.pages.specs.Log.{encoded};
ghost use Rattle.pages.specs.Pieces.{overwritten};

use pages::{FlatStore, LogStore, PageStore, StoreFault};

// One page written through a flat store: those 64 bytes are changed, and no other.
pub(crate) fn written_flat(memory: &mut [u8], page: u16, bytes: &[u8]) -> Result<(), StoreFault>
    ensures made { OnOk result (memory.new ≡ overwritten memory.old (64 * page) bytes.now) }
    ensures refused { OnErr result (memory.new ≡ memory.old) }
{
    FlatStore::new(memory).write(page, bytes)
}

// One page written through a log store: the memory begins with its record.
pub(crate) fn written_log(memory: &mut [u8], page: u16, bytes: &[u8]) -> Result<(), StoreFault>
    ensures made { OnOk result (take 66 memory.new ≡ encoded (record { page = page; bytes = bytes.now })) }
    ensures refused { OnErr result (memory.new ≡ memory.old) }
{
    LogStore::new(memory).write(page, bytes)
}
