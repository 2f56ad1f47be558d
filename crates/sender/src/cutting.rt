// A message cut into packets: how many there are, and packet k as a header and a part of the message.
ghost use Rattle.std.specs.Prelude.{◌≡◌, ◌++◌, ◌*◌, ◌≤◌, ◌<◌, length, IfOk};
ghost use Rattle.mctp.specs.Apart.{joined};
ghost use Rattle.mctp.specs.Refusals.{outcome_number};
ghost use Rattle.sender.specs.Cutting.{message_right, packet_header, count_refusal, count_of, cut_refusal};
ghost use Rattle.sender.specs.Messages.{packet_of, cut_refusal_of};
ghost use Rattle.sender.specs.Answers.{number_counted, packets_counted};

use crate::heading::{Heading, Message};
use mctp::{Apart, Header, LARGEST_BODY, Refusal};

// How many packets there are of a message.
pub fn count(message: &[u8]) -> Result<usize, Refusal>
    ensures number { number_counted result ≡ count_refusal 64 (length message.now) }
    ensures packets { packets_counted result ≡ count_of 64 (length message.now) }
{
    count_within(LARGEST_BODY, message.len())
}

#[tactic(auto, unfolding(crate::specs::Cutting::count_refusal, crate::specs::Cutting::count_of))]
fn count_within(most: usize, size: usize) -> Result<usize, Refusal>
    ensures number { number_counted result ≡ count_refusal most size }
    ensures packets { packets_counted result ≡ count_of most size }
{
    if !mctp::body_right(most) {
        return Err(Refusal::Setup);
    }
    if !message_right(size) {
        return Err(Refusal::Size);
    }
    Ok(size.div_ceil(most))
}

fn message_right(size: usize) -> bool
    ensures { result ≡ message_right size }
{
    (1..=1024).contains(&size)
}

// Packet k before it goes anywhere: its header's bytes, and its body where it stands in the message.
#[derive(Clone, Copy)]
pub struct Packet<'a> {
    pub header: [u8; 4],
    pub body: &'a [u8],
}

impl Packet<'_> {
    // As a carrier's writer takes it.
    pub fn apart(&self) -> Apart<'_>
        ensures { joined result ≡ self.now.header ++ self.now.body.now }
    {
        Apart {
            header: &self.header,
            body: self.body,
        }
    }
}

// Packet k of a message: all that is refused before it goes anywhere is refused here.
#[tactic(auto, using(crate::proofs::Cuts::there), unfolding(crate::specs::Cutting::packet_at))]
pub fn cut(most: usize, message: Message<'_>, k: usize) -> Result<Packet<'_>, Refusal>
    ensures number { outcome_number result ≡ cut_refusal_of most message.entry k }
    ensures header { IfOk result (λ packet. length packet.header ≡ 4) }
    ensures packet { IfOk result (λ packet. packet.header ++ packet.body.now ≡ packet_of most message.entry k) }
{
    let size = message.bytes.len();
    may_cut(most, message.heading, size, k)?;
    Ok(Packet {
        header: mctp::header_bytes(packet_header(most, message.heading, size, k)),
        body: octets::part(message.bytes, k * most, most),
    })
}

// A packet has a byte at least, so k is below 1,024, and k × most can't wrap; nothing is divided.
#[tactic(auto, using(crate::proofs::Cuts::past_or_there), unfolding(crate::specs::Cutting::cut_refusal))]
fn may_cut(most: usize, heading: Heading, size: usize, k: usize) -> Result<(), Refusal>
    ensures { outcome_number result ≡ cut_refusal most heading size k }
{
    if !mctp::body_right(most) || !heading.is_right() {
        return Err(Refusal::Setup);
    }
    if !message_right(size) {
        return Err(Refusal::Size);
    }
    if 1024 <= k || size <= k * most {
        return Err(Refusal::PastEnd);
    }
    Ok(())
}

// The header of packet k, of a message of this size that has one.
#[tactic(auto, using(crate::proofs::Cuts::last_is), unfolding(crate::specs::Cutting::packet_header))]
fn packet_header(most: usize, heading: Heading, size: usize, k: usize) -> Header
    requires { (1 ≤ most) × (most ≤ 246) × (k * most < size) × (size ≤ 1024) }
    ensures { result ≡ packet_header most heading size k }
{
    Header {
        version: 1,
        start: k == 0,
        end: size <= k * most + most,
        sequence: ((usize::from(heading.first) + k) % 4) as u8,
        key: heading.key,
    }
}
