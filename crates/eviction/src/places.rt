// The places of a cache, and sets of them.
// There are sixteen places, 0 to 15. A set of them is a number of 16 bits, whose bit of value 2^k says whether place k is in.
// A place is a plain number, since by the rules notices may carry one from 16 on, and each policy sorts those out in one line.

ghost use Rattle.eviction.specs.Places.{Member};
ghost use Rattle.std.specs.Prelude.{◌↔◌, IsTrue};

// how many places a cache has
pub const PLACES: u8 = 16;

// as many, as the length of an array: by a cast, since a constant's value calls no `from`
pub(crate) const PLACES_LEN: usize = PLACES as usize;

// Whether a place is a member of a set; a number from 16 on never is.
pub fn contains(places: u16, place: u8) -> bool
    ensures { IsTrue result ↔ Member places place }
{
    place < PLACES && (places >> place) % 2 == 1
}
