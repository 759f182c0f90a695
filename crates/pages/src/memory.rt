// Memory as pieces of one width, one after the other: piece k begins at byte WIDTH × k. Both stores lay their memory out so.
// Writing a piece changes its bytes and no other.

ghost use Rattle.std.specs.Prelude.{◌≡◌, ◌+◌, ◌*◌, ◌<◌, ◌≤◌, length};
ghost use Rattle.pages.specs.Pieces.{piece, overwritten, whole_pieces};

// How many whole pieces a memory holds, at most `most`.
pub(crate) fn count_pieces<const WIDTH: usize>(memory: &[u8], most: u16) -> u16
    requires { 0 < WIDTH }
    ensures { result ≡ whole_pieces WIDTH most (length memory.now) }
{
    u16::try_from(memory.len() / WIDTH).map_or(most, |pieces| pieces.min(most))
}

// The piece at a place. This and the next take a memory and a place in it, since the memory is a field of each store, which its
// lender must see.
pub(crate) fn piece<const WIDTH: usize>(memory: &[u8], at: u16) -> &[u8; WIDTH]
    requires wide { 0 < WIDTH }
    requires fits { WIDTH * at + WIDTH ≤ length memory.now }
    ensures { result.now ≡ piece WIDTH memory.now at }
{
    let (pieces, _) = memory.as_chunks();
    &pieces[usize::from(at)]
}

// Writes a piece.
pub(crate) fn put_piece<const WIDTH: usize>(memory: &mut [u8], at: u16, bytes: &[u8; WIDTH])
    requires { WIDTH * at + WIDTH ≤ length memory.old }
    ensures { memory.new ≡ overwritten memory.old (WIDTH * at) bytes.now }
{
    let from = WIDTH * usize::from(at);
    // copied first, since between two references the compiled code looks whether they overlap, and may then go byte by byte
    let bytes = *bytes;
    memory[from..from + WIDTH].copy_from_slice(&bytes);
}
