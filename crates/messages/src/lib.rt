// A message that a receiver has put together, read out of the message memory.
#![tactic(auto)]

mod memory;

pub use memory::message;
