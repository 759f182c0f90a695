// A page store of a vendor's own, with a single page in an array: what the trait asks for is all that it shows.

ghost use Rattle.std.specs.Prelude.{[], ◌∷◌};

use pages::{PAGE_BYTES, PageStore, StoreFault};

#[derive(Drop)]
pub(crate) struct OnePage {
    page: [u8; PAGE_BYTES],
}

impl OnePage {
    pub(crate) fn of(byte: u8) -> OnePage {
        OnePage {
            page: [byte; PAGE_BYTES],
        }
    }
}

impl PageStore for OnePage {
    ghost pages = { λ store. store.page ∷ [] };

    fn count(&self) -> u16 {
        1
    }

    fn read(&self, page: u16, buffer: &mut [u8]) -> Result<(), StoreFault> {
        let buffer = buffer.as_mut_array().ok_or(StoreFault::WrongLength)?;
        if page > 0 {
            return Err(StoreFault::NoSuchPage);
        }
        *buffer = self.page;
        Ok(())
    }

    fn write(&mut self, page: u16, bytes: &[u8]) -> Result<(), StoreFault> {
        let bytes = bytes.as_array().ok_or(StoreFault::WrongLength)?;
        if page > 0 {
            return Err(StoreFault::NoSuchPage);
        }
        self.page = *bytes;
        Ok(())
    }
}
