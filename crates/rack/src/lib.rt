// Arrivals on the three paths: the carrier's checks, all of them, and then the message rules.
#![tactic(auto)]

mod answer;
mod path;

pub use answer::{Arrived, Beside, NoPacket, Received};
pub use path::{from_pcc, from_ring, from_smbus};
