// The sending half: a message cut into packets, each written where it is to go, with no copy in between.
#![tactic(auto)]

mod cutting;
mod heading;
mod sending;

pub use cutting::count;
pub use heading::{Heading, Message};
pub use sending::{to_output, to_pcc, to_ring, to_smbus};
