// A packet put into the ring.
ghost use Rattle.std.specs.Prelude.{◌≡◌, ◌+◌, ◌≤◌, ◌<◌, length};
ghost use Rattle.mctp.specs.Apart.{joined};
ghost use Rattle.ring.specs.Layout.{padding_for, whole_for, header_for, ring_bytes};
ghost use Rattle.ring.specs.Round.{stored};
ghost use Rattle.ring.specs.Answers.{entered_in};
ghost use Rattle.ring.specs.Offers.{entered_at, written_at};

use crate::number::Pointed;
use crate::offer::Offered;
use crate::{number, round};
use mctp::{Apart, Refusal};
use octets::HighFirst;

// A packet put into the ring at the write pointer, which then stands at the answer; 11 unless the interface is in
// normal runtime.
pub fn write(ring: &mut [u8], offered: Offered, packet: &[u8]) -> Result<usize, Refusal>
    ensures answer { entered_in result ≡ entered_at 64 (length ring.old) offered (length packet.now) }
    ensures ring { ring.new ≡ written_at 64 ring.old offered packet.now }
{
    write_apart(mctp::LARGEST_BODY, ring, offered, Apart::whole(packet))
}

// A packet whose header and body lie apart, put into the ring at the write pointer, with the largest body as a number.
pub fn write_apart(
    most: usize,
    ring: &mut [u8],
    offered: Offered,
    packet: Apart,
) -> Result<usize, Refusal>
    ensures answer { entered_in result ≡ entered_at most (length ring.old) offered (length (joined packet.entry)) }
    ensures ring { ring.new ≡ written_at most ring.old offered (joined packet.entry) }
{
    let next = judge(most, ring.len(), offered, packet.size())?;
    fill(ring, offered.pointers.write, packet);
    Ok(next)
}

// What writing answers, from the packet's size alone; nothing is stored yet.
#[tactic(auto, using(crate::proofs::Numbers::room_below), unfolding(crate::specs::Writing::entered_of))]
fn judge(most: usize, lent: usize, offered: Offered, size: usize) -> Result<usize, Refusal>
    ensures { entered_in result ≡ entered_at most lent offered size }
{
    if !number::set_up_right(most, offered.configured, lent) {
        return Err(Refusal::Setup);
    }
    if !mctp::size_right(most, size) {
        return Err(Refusal::Size);
    }
    if !offered.is_writable() {
        return Err(Refusal::NotRunning);
    }
    let at = Pointed::new(offered.configured, offered.pointers)?;
    let whole = 4 + size + padding_for(size);
    if at.room() < whole {
        return Err(Refusal::Room);
    }
    Ok(number::next(at.length, at.write, whole))
}

// The ring's header, the packet's two pieces and the padding, stored one after the other from the write pointer on.
// Pointers are multiples of 4, as the length is, so the four bytes of the ring's header don't run over the ring's end;
// a piece may.
#[tactic(auto, using(crate::proofs::Numbers::next_below))]
fn fill(ring: &mut [u8], write: usize, packet: Apart)
    requires { (length ring.old ≤ 65536) × (write + 4 ≤ length ring.old)
        × (length packet.header.now + length packet.body.now ≤ 250)
        × (whole_for (length packet.header.now + length packet.body.now) ≤ length ring.old) }
    ensures { ring.new ≡ stored ring.old write (ring_bytes (joined packet.entry)) }
{
    let size = packet.size();
    let padding = padding_for(size);
    let lent = ring.len();
    octets::lay_word::<HighFirst>(ring, write, header_for(size));
    round::copy_in(ring, number::next(lent, write, 4), packet.header);
    round::copy_in(
        ring,
        number::next(lent, write, 4 + packet.header.len()),
        packet.body,
    );
    round::pad(ring, number::next(lent, write, 4 + size), padding);
}

// The header of Table 6 for a packet of `size` bytes, with MCTP's type.
#[tactic(auto, unfolding(crate::specs::Layout::header_for))]
fn header_for(size: usize) -> u32
    requires { size ≤ 250 }
    ensures { result ≡ header_for size }
{
    let padding = padding_for(size);
    let whole = 4 + size + padding;
    ((whole / 4 - 1) * 1024 + padding * 256 + 4) as u32
}

// "padding to a multiple of 4", for a packet of `size` bytes.
fn padding_for(size: usize) -> usize
    ensures { result ≡ padding_for size }
{
    (4 - size % 4) % 4
}
