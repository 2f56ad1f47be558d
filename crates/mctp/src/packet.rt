// A packet's size, its header, and the key under which its message is gathered.
ghost use Rattle.std.specs.Prelude.{◌≡◌};
ghost use Rattle.mctp.specs.Key.{key_of, header_of, header_bytes};
ghost use Rattle.mctp.specs.Packet.{body_right, size_right};

use crate::eid::Eid;

// "64 is the baseline unit": the largest body of the base.
pub const LARGEST_BODY: usize = 64;

// Whether a set-up may ask for bodies as large as this.
pub fn body_right(most: usize) -> bool
    ensures { result ≡ body_right most }
{
    (LARGEST_BODY..=246).contains(&most)
}

// Whether a packet has as many bytes as a carrier takes: "5 to 68 in all", where 68 is 4 + `most`.
pub fn size_right(most: usize, size: usize) -> bool
    ensures { result ≡ size_right most size }
{
    (1..=most).contains(&size.saturating_sub(4))
}

// "a key (destination, source, tag owner, tag)"
#[derive(Clone, Copy, PartialEq, Eq)]
pub struct Key {
    pub destination: Eid,
    pub source: Eid,
    pub owner: bool,
    pub tag: u8,
}

// The fields of a packet's four header bytes.
#[derive(Clone, Copy, PartialEq, Eq)]
pub struct Header {
    pub version: u8,
    pub start: bool,
    pub end: bool,
    pub sequence: u8,
    pub key: Key,
}

// The key of a packet; of a list that is too short, the key of the bytes there are, with 0 for the others.
#[tactic(auto, unfolding(crate::specs::Key::key_of))]
pub fn key_of(packet: &[u8]) -> Key
    ensures { result ≡ key_of packet.now }
{
    let flags = octets::byte_at(packet, 3);
    Key {
        destination: Eid(octets::byte_at(packet, 1)),
        source: Eid(octets::byte_at(packet, 2)),
        owner: flags / 8 % 2 == 1,
        tag: flags % 8,
    }
}

// The whole header, read once.
#[tactic(auto, unfolding(crate::specs::Key::header_of))]
pub fn header_of(packet: &[u8]) -> Header
    ensures { result ≡ header_of packet.now }
{
    let flags = octets::byte_at(packet, 3);
    Header {
        version: octets::byte_at(packet, 0) % 16,
        start: flags / 128 % 2 == 1,
        end: flags / 64 % 2 == 1,
        sequence: flags / 16 % 4,
        key: key_of(packet),
    }
}

// The four bytes of a header; of a number that is too large for its field, the low bits.
#[tactic(auto, unfolding(crate::specs::Key::header_bytes, crate::specs::Key::flags_for))]
pub fn header_bytes(header: Header) -> [u8; 4]
    ensures { result ≡ header_bytes header }
{
    let flags = u8::from(header.start) * 128
        + u8::from(header.end) * 64
        + header.sequence % 4 * 16
        + u8::from(header.key.owner) * 8
        + header.key.tag % 8;
    [
        header.version % 16,
        header.key.destination.0,
        header.key.source.0,
        flags,
    ]
}
