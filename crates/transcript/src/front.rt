// What is left of a buffer moved to its front.
ghost use Rattle.std.specs.Prelude.{◌≡◌, length};
ghost use Rattle.transcript.specs.Front.{between, moved_of};

// The bytes from place `from` up to place `end` moved to the front, the rest unchanged; and how many they are.
pub fn to_front(bytes: &mut [u8], from: usize, end: usize) -> usize
    ensures count { result ≡ length (between bytes.old from end) }
    ensures bytes { bytes.new ≡ moved_of bytes.old from end }
{
    let stop = end.min(bytes.len());
    if stop <= from {
        return 0;
    }
    bytes.copy_within(from..stop, 0);
    stop - from
}
