// A packet in two pieces.
ghost use Rattle.std.specs.Prelude.{◌≡◌, ◌+◌, [], length};
ghost use Rattle.mctp.specs.Apart.{joined};

// A packet whose header and body lie apart: the two joined are the packet. So who cuts a message into packets needs no
// buffer of a packet to join the two in. The pieces may have any sizes.
#[derive(Clone, Copy)]
pub struct Apart<'a> {
    pub header: &'a [u8],
    pub body: &'a [u8],
}

impl<'a> Apart<'a> {
    // A packet that lies in one piece: the other is empty.
    pub fn whole(packet: &'a [u8]) -> Apart<'a>
        ensures header { result.header.now ≡ [] }
        ensures body { result.body.now ≡ packet.now }
    {
        Apart {
            header: &[],
            body: packet,
        }
    }

    // The packet's size.
    pub fn size(self) -> usize
        ensures packet { result ≡ length (joined self.entry) }
        ensures pieces { result ≡ length self.entry.header.now + length self.entry.body.now }
    {
        self.header.len() + self.body.len()
    }
}
