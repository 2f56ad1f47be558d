// What is sent: a message, and the numbers that its packets' headers are made of.
ghost use Rattle.std.specs.Prelude.{◌≡◌};
ghost use Rattle.sender.specs.Cutting.{heading_right};

use mctp::Key;

// What the headers of a message's packets are made of: the key (destination, source, tag owner, tag), and the sequence
// number of the first packet.
#[derive(Clone, Copy)]
pub struct Heading {
    pub key: Key,
    pub first: u8,
}

impl Heading {
    // Whether every number is in its range.
    pub(crate) fn is_right(self) -> bool
        ensures { result ≡ heading_right self }
    {
        !self.key.destination.is_reserved()
            && self.key.source.is_endpoint()
            && self.key.tag <= 7
            && self.first <= 3
    }
}

// A message that is sent: its bytes, and what its packets' headers are made of.
#[derive(Clone, Copy)]
pub struct Message<'a> {
    pub bytes: &'a [u8],
    pub heading: Heading,
}
