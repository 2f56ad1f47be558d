// What a packet is: endpoint IDs, sizes, keys, header fields, and the refusals by name and number.
#![tactic(auto)]

mod apart;
mod eid;
mod packet;
mod refusal;

pub use apart::Apart;
pub use eid::Eid;
pub use packet::{
    Header, Key, LARGEST_BODY, body_right, header_bytes, header_of, key_of, size_right,
};
pub use refusal::Refusal;
