// What the message rules make of a packet: old slots freed, and the packet decided on.
#![tactic(auto)]

mod decision;
mod rules;

pub use decision::{Decided, decide, decide_within};
pub use rules::Plan;
