// What the programs tell: a page on standard output, line by line, in which calls and their answers stand in words; and
// on standard error what failed.
#![tactic(auto)]

mod answer;
mod failure;
mod output;
mod page;

pub use answer::{Answer, Good, PccPacket, Refused, SmbusPacket};
pub use failure::{fail, without_number};
pub use page::Page;
