// What reading answers of a good frame.

// Its packet, which `part` cuts out: who sent it.
#[derive(Clone, Copy, PartialEq, Eq)]
pub struct Packet {
    pub source: u8,
}
