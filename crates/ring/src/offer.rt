// What is offered beside a ring's bytes. None of it is believed.
ghost use Rattle.std.specs.Prelude.{◌≡◌};
ghost use Rattle.mmbi.specs.Interface.{state_of, may_read, may_write};

use mmbi::{Flags, Pointers};

// The ring's length as it is configured, both ends' flags, and the ring's pointers.
#[derive(Clone, Copy, PartialEq, Eq)]
pub struct Offered {
    pub configured: usize,
    pub flags: Flags,
    pub pointers: Pointers,
}

impl Offered {
    pub(crate) fn is_readable(self) -> bool
        ensures { result ≡ may_read (state_of self.flags) }
    {
        self.flags.state().may_read()
    }

    pub(crate) fn is_writable(self) -> bool
        ensures { result ≡ may_write (state_of self.flags) }
    {
        self.flags.state().may_write()
    }
}
