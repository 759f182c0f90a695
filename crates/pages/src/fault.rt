// Why a page store refuses a call. A refused call has altered nothing.

ghost use Rattle.std.specs.Prelude.{◌≡◌, Some};
ghost use Rattle.pages.specs.Fault.{number_of, text_of};

use std::error::Error;
use std::fmt;

#[derive(Clone, Copy, PartialEq, Eq, Debug)]
pub enum StoreFault {
    // the buffer is not as long as the pages that it is for
    WrongLength,
    // a page that is asked for is not below the store's count
    NoSuchPage,
}

impl StoreFault {
    // The number under which the refusal is documented, which callers keep in logs and pass on: so it stays a number.
    pub fn number(self) -> u8
        ensures { result ≡ number_of self }
    {
        match self {
            StoreFault::WrongLength => 2,
            StoreFault::NoSuchPage => 3,
        }
    }

    fn text(self) -> &'static str
        ensures { result.now ≡ text_of self }
    {
        match self {
            StoreFault::WrongLength => "wrong buffer length",
            StoreFault::NoSuchPage => "no such page",
        }
    }
}

// By hand, since the message of a derive has no contract, and this one promises what is printed.
impl fmt::Display for StoreFault {
    ghost output = { λ fault. Some (text_of fault) };

    fn fmt<W: fmt::Write>(&self, f: &mut fmt::Formatter<W>) -> fmt::Result {
        f.pad(self.text())
    }
}

impl Error for StoreFault {}
