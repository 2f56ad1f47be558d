// A region read: the packet as a part of it, the refusal number, the notify flag.
ghost use Rattle.std.specs.Prelude.{◌≡◌};
ghost use Rattle.std.specs.Result.{result_unwrap_or};
ghost use Rattle.mctp.specs.Refusals.{outcome_number};
ghost use Rattle.pcc.specs.Reading.{refusal_of, size_of, part_of, packet_of, notify_of};
ghost use Rattle.pcc.specs.Answers.{number_read, size_read, notify_read};

use crate::answer::Packet;
use crate::layout::{COMMAND, SIGNATURE};
use mctp::{LARGEST_BODY, Refusal};
use octets::LowFirst;

// What the region carries under this id: the packet's size with the notify flag, or the refusal.
pub fn read(region: &[u8], id: u32) -> Result<Packet, Refusal>
    ensures number { number_read result ≡ refusal_of 64 region.now id }
    ensures size { size_read result ≡ size_of 64 region.now id }
    ensures notify { notify_read result ≡ notify_of 64 region.now id }
{
    read_within(LARGEST_BODY, region, id)
}

// The packet, a part of the region; empty where refused.
pub fn packet(region: &[u8], id: u32) -> &[u8]
    ensures { result.now ≡ packet_of 64 region.now id }
{
    match read(region, id) {
        Ok(packet) => part(region, packet.size),
        Err(_) => part(region, 0),
    }
}

// The refusal's number; 0 where good.
pub fn refusal(region: &[u8], id: u32) -> u8
    ensures { result ≡ refusal_of 64 region.now id }
{
    read(region, id).err().map_or(0, Refusal::number)
}

// Notify on completion; clear where refused.
pub fn notify(region: &[u8], id: u32) -> bool
    ensures { result ≡ notify_of 64 region.now id }
{
    read(region, id).is_ok_and(|packet| packet.notify)
}

// So many bytes of the region from place 16 on, where a packet stands; fewer where the region ends before.
// Also of a region that is refused: who has not asked `read` gets bytes that no check let through.
// It is `packet` that is empty where refused.
pub fn part(region: &[u8], size: usize) -> &[u8]
    ensures { result.now ≡ part_of region.now size }
{
    octets::part(region, 16, size)
}

// Reading with the largest body as a number: the flag only of a region that every check lets through.
#[tactic(auto, unfolding(crate::specs::Reading::notify_of))]
fn read_within(most: usize, region: &[u8], id: u32) -> Result<Packet, Refusal>
    ensures number { number_read result ≡ refusal_of most region.now id }
    ensures size { size_read result ≡ size_of most region.now id }
    ensures notify { notify_read result ≡ notify_of most region.now id }
{
    let size = check(most, region, id)?;
    let notify = octets::word_at::<LowFirst>(region, 4) % 2 == 1;
    Ok(Packet { size, notify })
}

// The size of the packet that a region carries; the checks in the order of document 01, those of one number in one
// line.
#[tactic(auto, unfolding(crate::specs::Reading::refusal_of, crate::specs::Reading::size_of))]
fn check(most: usize, region: &[u8], id: u32) -> Result<usize, Refusal>
    ensures number { outcome_number result ≡ refusal_of most region.now id }
    ensures size { result_unwrap_or result 0 ≡ size_of most region.now id }
{
    if !mctp::body_right(most) || 255 < id {
        return Err(Refusal::Setup);
    }
    if region.len() < 84 {
        return Err(Refusal::Room);
    }
    if octets::word_at::<LowFirst>(region, 0) != SIGNATURE + id {
        return Err(Refusal::Signature);
    }
    if octets::word_at::<LowFirst>(region, 12) != COMMAND {
        return Err(Refusal::Command);
    }
    let length = octets::word_at::<LowFirst>(region, 8) as usize;
    if !(9..=8 + most).contains(&length) || region.len() - 12 < length {
        return Err(Refusal::Size);
    }
    Ok(length - 4)
}
