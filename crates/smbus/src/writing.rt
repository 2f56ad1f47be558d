// Writing a packet as a frame: first whether it may be, by sizes and addresses alone, then the frame itself.
ghost use Rattle.std.specs.Prelude.{◌≡◌, ◌+◌, ◌≤◌, OnOk, length};
ghost use Rattle.octets.specs.Bytes.{fronted};
ghost use Rattle.mctp.specs.Apart.{joined};
ghost use Rattle.mctp.specs.Refusals.{outcome_number};
ghost use Rattle.smbus.specs.Layout.{frame_of};
ghost use Rattle.smbus.specs.Writing.{write_refusal, size_of, written_of};
ghost use Rattle.smbus.specs.Answers.{number_written, size_written};

use mctp::{Apart, LARGEST_BODY, Refusal};

// The frame at the front of the output, the rest unchanged; nothing is written where the answer is a refusal.
pub fn write(out: &mut [u8], packet: &[u8], destination: u8, source: u8) -> Result<usize, Refusal>
    ensures number { number_written result
        ≡ write_refusal 64 (length out.old) (length packet.now) destination source }
    ensures size { size_written result
        ≡ size_of 64 (length out.old) (length packet.now) destination source }
    ensures output { out.new
        ≡ written_of 64 out.old packet.now destination source }
{
    write_apart(LARGEST_BODY, out, Apart::whole(packet), destination, source)
}

// A packet whose header and body lie apart, with the largest body as a number.
#[tactic(auto, unfolding(crate::specs::Writing::size_of, crate::specs::Writing::written_of))]
pub fn write_apart(
    most: usize,
    out: &mut [u8],
    packet: Apart,
    destination: u8,
    source: u8,
) -> Result<usize, Refusal>
    ensures number { number_written result ≡ write_refusal most (length out.old)
        (length (joined packet.entry)) destination source }
    ensures size { size_written result ≡ size_of most (length out.old)
        (length (joined packet.entry)) destination source }
    ensures output { out.new ≡ written_of most out.old (joined packet.entry) destination source }
{
    let size = packet.size();
    may_write(most, out.len(), size, destination, source)?;
    fill(out, packet, destination, source);
    Ok(5 + size)
}

// Whether a packet of this size may be written: all that is refused is refused here, before a byte is stored.
#[tactic(auto, unfolding(crate::specs::Writing::write_refusal))]
fn may_write(
    most: usize,
    room: usize,
    size: usize,
    destination: u8,
    source: u8,
) -> Result<(), Refusal>
    ensures number { outcome_number result ≡ write_refusal most room size destination source }
    ensures fits { OnOk result ((destination ≤ 127) × (source ≤ 127) × (size ≤ 250) × (5 + size ≤ room)) }
{
    if !mctp::body_right(most) || 127 < destination || 127 < source {
        return Err(Refusal::Setup);
    }
    if !mctp::size_right(most, size) {
        return Err(Refusal::Size);
    }
    if room < 5 + size {
        return Err(Refusal::Room);
    }
    Ok(())
}

// The head, the packet in its two pieces, and the PEC of all three: of the bytes as they came, since those that were
// just stored can't be read as words without waiting for them.
fn fill(out: &mut [u8], packet: Apart, destination: u8, source: u8)
    requires { (destination ≤ 127) × (source ≤ 127) × (length packet.header.now + length packet.body.now ≤ 250)
        × (5 + (length packet.header.now + length packet.body.now) ≤ length out.old) }
    ensures { out.new ≡ fronted out.old (frame_of destination source (joined packet.entry)) }
{
    let size = packet.size();
    let head = [destination * 2, 0x0F, (1 + size) as u8, source * 2 + 1];
    octets::lay(out, 0, &head);
    octets::lay(out, 4, packet.header);
    octets::lay(out, 4 + packet.header.len(), packet.body);
    out[4 + size] = pec::pec_apart(&head, packet.header, packet.body);
}
