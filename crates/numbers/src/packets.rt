// Packets from EID 10 to EID 9, given one after another to a receiver at EID 9.
use mctp::Eid;
use slots::Receiver;

// Four slots of 1,024 bytes.
pub type Memory = [u8; 4096];

pub const MEMORY: Memory = [0; 4096];

// Start and end set, with one byte of body.
pub const ORDER: [u8; 5] = [0x01, 0x09, 0x0A, 0xC8, 0x00];

// The receiver before its first packet: a slot is freed when it is older than a second.
pub fn fresh() -> Receiver {
    slots::set_up(Eid(9), 1000).receiver
}

// A packet with a body of one byte, and one with the largest body, by their byte of flags, sequence number and tag.
pub fn small(byte: u8) -> [u8; 5] {
    [0x01, 0x09, 0x0A, byte, 0x00]
}

pub fn large(byte: u8) -> [u8; 68] {
    let mut packet = [0; 68];
    packet[..5].copy_from_slice(&small(byte));
    packet
}

// A call on the receiver: one of these packets, or a slot freed.
#[derive(Clone, Copy)]
pub enum Call {
    Small(u8),
    Large(u8),
    Free(usize),
}

// What calls leave of a fresh receiver. All come at one time.
pub fn after(calls: &[Call], memory: &mut Memory) -> Receiver {
    let mut receiver = fresh();
    for call in calls {
        receiver = match *call {
            Call::Small(byte) => receiver::give(receiver, memory, &small(byte), 0).receiver,
            Call::Large(byte) => receiver::give(receiver, memory, &large(byte), 0).receiver,
            Call::Free(slot) => slots::free(receiver, slot).receiver,
        };
    }
    receiver
}
