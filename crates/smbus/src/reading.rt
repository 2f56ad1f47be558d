// Reading a frame: one pass over it finds the packet or the refusal, and each question on it asks that pass.
ghost use Rattle.std.specs.Prelude.{◌≡◌, ◌<◌, eqb, length};
ghost use Rattle.pec.specs.Remainder.{pec_of};
ghost use Rattle.smbus.specs.Reading.{end_of, before_end, refusal_of, packet_of, source_address_of, part_of};
ghost use Rattle.smbus.specs.Answers.{number_read, source_read};

use crate::answer::Packet;
use mctp::{LARGEST_BODY, Refusal};

// All that one pass over the frame tells: the work of every question below.
pub fn read(frame: &[u8], own: u8) -> Result<Packet, Refusal>
    ensures number { number_read result ≡ refusal_of 64 frame.now own }
    ensures source { source_read result ≡ source_address_of 64 frame.now own }
{
    read_within(LARGEST_BODY, frame, own)
}

// The packet as a part of the lent frame; empty where the frame is refused.
#[tactic(auto, unfolding(crate::specs::Reading::packet_of))]
pub fn packet(frame: &[u8], own: u8) -> &[u8]
    ensures { result.now ≡ packet_of 64 frame.now own }
{
    match read(frame, own) {
        Ok(_) => part(frame),
        Err(_) => &frame[..0],
    }
}

// The number of the refusal; 0 where the frame is good.
pub fn refusal(frame: &[u8], own: u8) -> u8
    ensures { result ≡ refusal_of 64 frame.now own }
{
    read(frame, own).err().map_or(0, Refusal::number)
}

// The address of the sender; 0 where the frame is refused.
pub fn source(frame: &[u8], own: u8) -> u8
    ensures { result ≡ source_address_of 64 frame.now own }
{
    read(frame, own).map_or(0, |packet| packet.source)
}

// The bytes where a packet stands, also of a frame that is refused: who has not asked `read` gets bytes that no check
// let through. It is `packet` that is empty where refused.
#[tactic(auto, unfolding(crate::specs::Reading::part_of))]
pub fn part(frame: &[u8]) -> &[u8]
    ensures { result.now ≡ part_of frame.now }
{
    octets::part(frame, 4, frame.len().saturating_sub(5))
}

// The checks stand in the order of document 01, those of one number in one line; `own * 2` is our address with bit 0
// clear. The PEC is worked out once, and only where all else is right.
#[tactic(auto, unfolding(crate::specs::Reading::refusal_of, crate::specs::Reading::source_address_of))]
fn read_within(most: usize, frame: &[u8], own: u8) -> Result<Packet, Refusal>
    ensures number { number_read result ≡ refusal_of most frame.now own }
    ensures source { source_read result ≡ source_address_of most frame.now own }
{
    if !mctp::body_right(most) || 127 < own {
        return Err(Refusal::Setup);
    }
    let size = frame.len();
    if size < 10 || 9 + most < size {
        return Err(Refusal::Size);
    }
    if frame[0] != own * 2 {
        return Err(Refusal::Address);
    }
    if frame[1] != 0x0F {
        return Err(Refusal::Command);
    }
    if usize::from(frame[2]) + 4 != size {
        return Err(Refusal::Count);
    }
    if frame[3] % 2 != 1 {
        return Err(Refusal::SourceBit);
    }
    if !ends_right(frame) {
        return Err(Refusal::Pec);
    }
    Ok(Packet {
        source: frame[3] / 2,
    })
}

// Whether the last byte is the PEC of all bytes before it.
#[tactic(auto, unfolding(crate::specs::Reading::end_of, crate::specs::Reading::before_end))]
fn ends_right(frame: &[u8]) -> bool
    requires { 0 < length frame.now }
    ensures { result ≡ eqb (end_of frame.now) (pec_of (before_end frame.now)) }
{
    frame
        .split_last()
        .is_some_and(|(end, before)| *end == pec::pec(before))
}
