// A packet written to a region's front.
ghost use Rattle.std.specs.Prelude.{◌≡◌, ◌+◌, ◌≤◌, OnOk, length};
ghost use Rattle.octets.specs.Bytes.{fronted};
ghost use Rattle.mctp.specs.Apart.{joined};
ghost use Rattle.mctp.specs.Refusals.{outcome_number};
ghost use Rattle.pcc.specs.Layout.{region_of};
ghost use Rattle.pcc.specs.Writing.{write_refusal, written_of};
ghost use Rattle.pcc.specs.Answers.{number_written};

use crate::layout::{COMMAND, SIGNATURE};
use mctp::{Apart, LARGEST_BODY, Refusal};
use octets::LowFirst;

// The packet written under this id; where refused the region stays as it was.
pub fn write(region: &mut [u8], id: u32, notify: bool, packet: &[u8]) -> Result<(), Refusal>
    ensures number { number_written result ≡ write_refusal 64 (length region.old) id
        (length packet.now) }
    ensures region { region.new ≡ written_of 64 region.old id notify packet.now }
{
    write_apart(LARGEST_BODY, region, id, notify, Apart::whole(packet))
}

// A packet whose header and body lie apart, with the largest body as a number.
#[tactic(auto, unfolding(crate::specs::Writing::written_of))]
pub fn write_apart(
    most: usize,
    region: &mut [u8],
    id: u32,
    notify: bool,
    packet: Apart,
) -> Result<(), Refusal>
    ensures number { number_written result ≡ write_refusal most (length region.old) id
        (length (joined packet.entry)) }
    ensures region { region.new ≡ written_of most region.old id notify (joined packet.entry) }
{
    may_write(most, region.len(), id, packet.size())?;
    fill(region, id, notify, packet);
    Ok(())
}

// Whether a packet of this size may be written: by the lengths and the id alone.
#[tactic(auto, unfolding(crate::specs::Writing::write_refusal))]
fn may_write(most: usize, room: usize, id: u32, size: usize) -> Result<(), Refusal>
    ensures number { outcome_number result ≡ write_refusal most room id size }
    ensures fits { OnOk result ((id ≤ 255) × (size ≤ 250) × (16 + size ≤ room)) }
{
    if !mctp::body_right(most) || 255 < id {
        return Err(Refusal::Setup);
    }
    if !mctp::size_right(most, size) {
        return Err(Refusal::Size);
    }
    if room < (16 + size).max(84) {
        return Err(Refusal::Room);
    }
    Ok(())
}

// The four words and the packet in its two pieces, one after the other.
fn fill(region: &mut [u8], id: u32, notify: bool, packet: Apart)
    requires { (id ≤ 255) × (length packet.header.now + length packet.body.now ≤ 250)
        × (16 + (length packet.header.now + length packet.body.now) ≤ length region.old) }
    ensures { region.new ≡ fronted region.old (region_of id notify (joined packet.entry)) }
{
    let size = packet.size();
    octets::lay_word::<LowFirst>(region, 0, SIGNATURE + id);
    octets::lay_word::<LowFirst>(region, 4, u32::from(notify));
    octets::lay_word::<LowFirst>(region, 8, (4 + size) as u32);
    octets::lay_word::<LowFirst>(region, 12, COMMAND);
    octets::lay(region, 16, packet.header);
    octets::lay(region, 16 + packet.header.len(), packet.body);
}
