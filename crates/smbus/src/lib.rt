// The SMBus carrier: the packet found in a lent frame, and a packet written as a frame.
#![tactic(auto)]

mod answer;
mod reading;
mod writing;

pub use answer::Packet;
pub use reading::{packet, part, read, refusal, source};
pub use writing::{write, write_apart};
