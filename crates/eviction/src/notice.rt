// What a policy is told of a place. A number from 16 on names no place.

#[derive(Clone, Copy, PartialEq, Eq, Debug)]
pub enum Notice {
    // the page in this place was read or written
    Used(u8),
    // this place holds no page any more
    Emptied(u8),
}
