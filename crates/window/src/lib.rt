// What lies in an MMBI window by a configuration: rings, structures, words.
#![tactic(auto)]

mod place;
mod word;

pub use place::{area, check, place_of};
pub use word::{Interface, Pointer, interface_of, store, store_flags, store_pointer};
