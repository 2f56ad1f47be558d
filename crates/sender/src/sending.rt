// Packet k of a message into an output, and straight onto a carrier: the header is made, the body is a part of the
// message, and both go where they are to stand. Each call takes what the carrier's writer takes, with the message and k
// in the packet's place.
ghost use Rattle.std.specs.Prelude.{◌≡◌, length};
ghost use Rattle.smbus.specs.Answers.{number_written as number_framed, size_written};
ghost use Rattle.pcc.specs.Answers.{number_written};
ghost use Rattle.ring.specs.Answers.{entered_in};
ghost use Rattle.sender.specs.Answers.{number_cut, size_cut};
ghost use Rattle.sender.specs.Messages.{output_refusal_of, output_size_of, output_written_of};
ghost use Rattle.sender.specs.Messages.{smbus_refusal_of, smbus_size_of, smbus_written_of, pcc_refusal_of};
ghost use Rattle.sender.specs.Messages.{pcc_written_of, ring_entered_of, ring_written_of};

use crate::cutting::cut;
use crate::heading::Message;
use mctp::{LARGEST_BODY, Refusal};
use ring::Offered;

// Packet k at the output's front, the rest unchanged: its size. Nothing is written where the answer is a refusal.
pub fn to_output(out: &mut [u8], message: Message, k: usize) -> Result<usize, Refusal>
    ensures number { number_cut result ≡ output_refusal_of 64 message.entry k (length out.old) }
    ensures size { size_cut result ≡ output_size_of 64 message.entry k (length out.old) }
    ensures output { out.new ≡ output_written_of 64 message.entry k out.old }
{
    output_within(LARGEST_BODY, out, message, k)
}

// Packet k as a frame, from address to address: the frame's length.
pub fn to_smbus(
    out: &mut [u8],
    message: Message,
    k: usize,
    destination: u8,
    source: u8,
) -> Result<usize, Refusal>
    ensures number { number_framed result ≡ smbus_refusal_of 64 message.entry k (length out.old) destination source }
    ensures size { size_written result ≡ smbus_size_of 64 message.entry k (length out.old) destination source }
    ensures output { out.new ≡ smbus_written_of 64 message.entry k out.old destination source }
{
    smbus_within(LARGEST_BODY, out, message, k, destination, source)
}

// Packet k in a region, under its id.
pub fn to_pcc(
    region: &mut [u8],
    id: u32,
    notify: bool,
    message: Message,
    k: usize,
) -> Result<(), Refusal>
    ensures number { number_written result ≡ pcc_refusal_of 64 message.entry k (length region.old) id }
    ensures region { region.new ≡ pcc_written_of 64 message.entry k region.old id notify }
{
    pcc_within(LARGEST_BODY, region, id, notify, message, k)
}

// Packet k in a ring, at the write pointer: the new write pointer.
pub fn to_ring(
    ring: &mut [u8],
    offered: Offered,
    message: Message,
    k: usize,
) -> Result<usize, Refusal>
    ensures answer { entered_in result ≡ ring_entered_of 64 message.entry k (length ring.old) offered }
    ensures ring { ring.new ≡ ring_written_of 64 message.entry k ring.old offered }
{
    ring_within(LARGEST_BODY, ring, offered, message, k)
}

#[tactic(auto, unfolding(crate::specs::Sending::output_refusal, crate::specs::Sending::output_size))]
fn output_within(most: usize, out: &mut [u8], message: Message, k: usize) -> Result<usize, Refusal>
    ensures number { number_cut result ≡ output_refusal_of most message.entry k (length out.old) }
    ensures size { size_cut result ≡ output_size_of most message.entry k (length out.old) }
    ensures output { out.new ≡ output_written_of most message.entry k out.old }
{
    let packet = cut(most, message, k)?;
    let size = 4 + packet.body.len();
    if out.len() < size {
        return Err(Refusal::Room);
    }
    octets::lay(out, 0, &packet.header);
    octets::lay(out, 4, packet.body);
    Ok(size)
}

#[tactic(auto, unfolding(crate::specs::Sending::smbus_refusal, crate::specs::Sending::smbus_written))]
fn smbus_within(
    most: usize,
    out: &mut [u8],
    message: Message,
    k: usize,
    destination: u8,
    source: u8,
) -> Result<usize, Refusal>
    ensures number { number_framed result ≡ smbus_refusal_of most message.entry k (length out.old) destination source }
    ensures size { size_written result ≡ smbus_size_of most message.entry k (length out.old) destination source }
    ensures output { out.new ≡ smbus_written_of most message.entry k out.old destination source }
{
    let packet = cut(most, message, k)?;
    smbus::write_apart(most, out, packet.apart(), destination, source)
}

#[tactic(auto, unfolding(crate::specs::Sending::pcc_refusal, crate::specs::Sending::pcc_written))]
fn pcc_within(
    most: usize,
    region: &mut [u8],
    id: u32,
    notify: bool,
    message: Message,
    k: usize,
) -> Result<(), Refusal>
    ensures number { number_written result ≡ pcc_refusal_of most message.entry k (length region.old) id }
    ensures region { region.new ≡ pcc_written_of most message.entry k region.old id notify }
{
    let packet = cut(most, message, k)?;
    pcc::write_apart(most, region, id, notify, packet.apart())
}

#[tactic(auto, unfolding(crate::specs::Sending::ring_entered, crate::specs::Sending::ring_written))]
fn ring_within(
    most: usize,
    ring: &mut [u8],
    offered: Offered,
    message: Message,
    k: usize,
) -> Result<usize, Refusal>
    ensures answer { entered_in result ≡ ring_entered_of most message.entry k (length ring.old) offered }
    ensures ring { ring.new ≡ ring_written_of most message.entry k ring.old offered }
{
    let packet = cut(most, message, k)?;
    ring::write_apart(most, ring, offered, packet.apart())
}
