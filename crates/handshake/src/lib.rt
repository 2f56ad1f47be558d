// The reset handshake (003, 8.1): both ends, each a step that sees the four flags and its own phase and says which
// flags to set or clear next; and the phase that an end starts in.
#![tactic(auto)]

mod controller;
mod host;
mod phase;

pub use controller::ControllerPhase;
pub use host::HostPhase;
pub use phase::{Phase, Step};
