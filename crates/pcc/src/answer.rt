// What reading answers of a good region.

// Its packet: the size, by which `part` cuts it out, and whether its sender asks for notice of completion.
#[derive(Clone, Copy, PartialEq, Eq)]
pub struct Packet {
    pub size: usize,
    pub notify: bool,
}
