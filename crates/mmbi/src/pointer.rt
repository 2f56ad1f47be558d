// A ring's length and its pointers, which are byte offsets from its front.
ghost use Rattle.std.specs.Prelude.{◌≡◌};
ghost use Rattle.mmbi.specs.Pointers.{length_right, pointer_right};

// A ring's pointers, in bytes from its front.
#[derive(Clone, Copy, PartialEq, Eq)]
pub struct Pointers {
    pub read: usize,
    pub write: usize,
}

// Whether a ring may have this length.
pub fn length_right(length: usize) -> bool
    ensures { result ≡ length_right length }
{
    (128..=65536).contains(&length) && length.is_multiple_of(4)
}

// Whether a number can be a pointer into a ring of this length: what 12 asks.
pub fn pointer_right(length: usize, pointer: usize) -> bool
    ensures { result ≡ pointer_right length pointer }
{
    pointer.is_multiple_of(4) && pointer < length
}
