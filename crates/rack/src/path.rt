// One call for each path: it takes the carrier's answer apart and leaves at once unless it is a packet. "A carrier's
// refusal never reaches the slots." `time` is the millisecond count at the call, for the message rules.
ghost use Rattle.std.specs.Prelude.{◌≡◌, Err};
ghost use Rattle.ring.specs.Offers.{output_at};
ghost use Rattle.rack.specs.Arrivals.{packet as brought, smbus_brings, pcc_brings, ring_brings_at};
ghost use Rattle.rack.specs.Answers.{after_arrival, arrived_of};

use crate::answer::{Arrived, Beside, NoPacket, Received};
use ring::{Found, Offered};
use slots::Receiver;

// A frame at our own address.
#[tactic(auto, unfolding(crate::specs::Arrivals::smbus_brings, smbus::specs::Reading::packet_of))]
pub fn from_smbus(
    frame: &[u8],
    own: u8,
    receiver: Receiver,
    memory: &mut [u8],
    time: u32,
) -> Received
    ensures { after_arrival result memory.new
        ≡ arrived_of 64 time receiver memory.old (smbus_brings 64 frame.now own) }
{
    match smbus::read(frame, own) {
        Ok(packet) => {
            let beside = Beside::Source(packet.source);
            give(receiver, memory, smbus::part(frame), time, beside)
        }
        Err(refusal) => no_packet(receiver, refusal.into()),
    }
}

// A region under its subspace id.
#[tactic(auto, unfolding(crate::specs::Arrivals::pcc_brings, pcc::specs::Reading::packet_of))]
pub fn from_pcc(
    region: &[u8],
    id: u32,
    receiver: Receiver,
    memory: &mut [u8],
    time: u32,
) -> Received
    ensures { after_arrival result memory.new
        ≡ arrived_of 64 time receiver memory.old (pcc_brings 64 region.now id) }
{
    match pcc::read(region, id) {
        Ok(packet) => {
            let beside = Beside::Notify(packet.notify);
            give(
                receiver,
                memory,
                pcc::part(region, packet.size),
                time,
                beside,
            )
        }
        Err(refusal) => no_packet(receiver, refusal.into()),
    }
}

// What stands in a ring. A packet is copied to the output's front first, and stays there whatever the message rules
// answer.
#[tactic(auto, unfolding(crate::specs::Arrivals::ring_brings))]
pub fn from_ring(
    bytes: &[u8],
    offered: Offered,
    out: &mut [u8],
    receiver: Receiver,
    memory: &mut [u8],
    time: u32,
) -> Received
    ensures arrival { after_arrival result memory.new
        ≡ arrived_of 64 time receiver memory.old
        (ring_brings_at 64 bytes.now offered out.old) }
    ensures output { out.new ≡ output_at 64 bytes.now offered out.old }
{
    match ring::read(bytes, offered, out) {
        Ok(Found::Packet { size, next }) => {
            give(receiver, memory, &out[..size], time, Beside::Next(next))
        }
        Ok(Found::Empty) => no_packet(receiver, NoPacket::Empty),
        Ok(Found::Skipped { refusal, next }) => {
            no_packet(receiver, NoPacket::Skipped { refusal, next })
        }
        Err(refusal) => no_packet(receiver, refusal.into()),
    }
}

fn no_packet(receiver: Receiver, why: NoPacket) -> Received
    ensures { result ≡ record { arrived = Err why; receiver = receiver } }
{
    Received {
        arrived: Err(why),
        receiver,
    }
}

// The packet given to the message rules.
fn give(receiver: Receiver, memory: &mut [u8], packet: &[u8], time: u32, beside: Beside) -> Received
    ensures { after_arrival result memory.new
        ≡ arrived_of 64 time receiver memory.old (brought packet.now beside) }
{
    let given = receiver::give(receiver, memory, packet, time);
    Received {
        arrived: Ok(Arrived {
            beside,
            answer: given.answer,
        }),
        receiver: given.receiver,
    }
}
