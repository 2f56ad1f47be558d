// The receiver's state: its set-up, its four slots, its tallies, what makes them right, and slots freed by a
// call or by age.
#![tactic(auto)]

mod age;
mod change;
mod check;
mod find;
mod state;
mod tally;

pub use age::expired;
pub use change::{Changed, free, set_up, with_slot};
pub use check::{ours, right, right_within};
pub use find::{lowest_free, slot_of, state_at};
pub use state::{Receiver, Setup, Slot, SlotState, Tallies};
pub use tally::{tallies_of, with_done, with_offered};
