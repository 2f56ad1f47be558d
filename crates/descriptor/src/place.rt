// A place in the window: where it begins and how long it is, in bytes from the window's front.
ghost use Rattle.std.specs.Prelude.{◌≡◌};
ghost use Rattle.descriptor.specs.Places.{end_of, lies_in, apart};

#[derive(Clone, Copy, PartialEq, Eq)]
pub struct Place {
    pub offset: u32,
    pub length: u32,
}

impl Place {
    // The byte after it. Both are 32 bits wide, so the sum is taken wider: base 2^29 − 1 with 65,536 added passes
    // 32 bits.
    pub fn end(self) -> usize
        ensures { result ≡ end_of self }
    {
        self.offset as usize + self.length as usize
    }

    pub(crate) fn lies_in(self, window: usize) -> bool
        ensures { result ≡ lies_in window self }
    {
        self.end() <= window
    }

    // Whether two places overlap nowhere.
    pub(crate) fn is_apart(self, other: Place) -> bool
        ensures { result ≡ apart self other }
    {
        self.end() <= other.offset as usize || other.end() <= self.offset as usize
    }
}
