// The MMBI ring: a packet taken out, a packet put in. No pointer, length, flag or byte that is offered is believed.
#![tactic(auto)]

mod number;
mod offer;
mod reading;
mod round;
mod writing;

pub use offer::Offered;
pub use reading::{Found, read};
pub use writing::{write, write_apart};
