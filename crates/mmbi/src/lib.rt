// The MMBI interface (003): its state from four flags, flags set and cleared, the words that hold pointers and flags, a
// ring's length and pointers.
#![tactic(auto)]

mod change;
mod interface;
mod pointer;
mod word;

pub use change::{Act, Change};
pub use interface::{Flags, InterfaceState};
pub use pointer::{Pointers, length_right, pointer_right};
pub use word::Word;
