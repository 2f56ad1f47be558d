// A packet given to the message rules: the decision on it carried out.
#![tactic(auto)]

mod giving;

pub use giving::{Given, Kept, give};
