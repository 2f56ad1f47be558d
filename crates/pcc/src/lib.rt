// The PCC carrier: a packet read as a part of a lent region, and written to a region's front.
#![tactic(auto)]

mod answer;
mod layout;
mod reading;
mod writing;

pub use answer::Packet;
pub use reading::{notify, packet, part, read, refusal};
pub use writing::{write, write_apart};
