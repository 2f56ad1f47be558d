// The descriptor at the front of an MMBI window, read into a checked configuration.
#![tactic(auto)]

mod configuration;
mod place;
mod reading;

pub use configuration::{Area, Configuration};
pub use place::Place;
pub use reading::read_descriptor;
