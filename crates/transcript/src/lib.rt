// The bench program's work: frames from records to lines, with the receiver and the two counts.
#![tactic(auto)]

mod frame;
mod front;
mod last;
mod line;
mod state;
mod taking;

pub use frame::{Framed, frame_line};
pub use front::to_front;
pub use last::last_line;
pub use state::{ADDRESS, OWN, State, set_up};
pub use taking::{Taken, chunk};
