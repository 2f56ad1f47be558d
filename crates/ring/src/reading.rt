// A packet taken out of the ring.
ghost use Rattle.std.specs.Prelude.{◌≡◌, ◌≤◌, length};
ghost use Rattle.ring.specs.Numbers.{filled_of};
ghost use Rattle.ring.specs.Reading.{judged};
ghost use Rattle.ring.specs.Answers.{found_in};
ghost use Rattle.ring.specs.Offers.{found_at, output_at};

use crate::number::Pointed;
use crate::offer::Offered;
use crate::{number, round};
use mctp::Refusal;
use octets::HighFirst;

// What a ring holds at its read pointer.
#[derive(Clone, Copy, PartialEq, Eq)]
pub enum Found {
    // A packet: its size and the new read pointer.
    Packet { size: usize, next: usize },
    // No packet is there.
    Empty,
    // A packet of another kind (14) or of a wrong size (3), with the pointer after it.
    Skipped { refusal: Refusal, next: usize },
}

// The packet at the read pointer, copied to the output's front; 11 unless the interface is in normal runtime, or one
// end alone asks for a reset.
pub fn read(ring: &[u8], offered: Offered, out: &mut [u8]) -> Result<Found, Refusal>
    ensures answer { found_in result ≡ found_at 64 ring.now offered (length out.old) }
    ensures output { out.new ≡ output_at 64 ring.now offered out.old }
{
    read_within(mctp::LARGEST_BODY, ring, offered, out)
}

// Reading with the largest body as a number.
fn read_within(most: usize, ring: &[u8], offered: Offered, out: &mut [u8]) -> Result<Found, Refusal>
    ensures answer { found_in result ≡ found_at most ring.now offered (length out.old) }
    ensures output { out.new ≡ output_at most ring.now offered out.old }
{
    let found = find(most, ring, offered, out.len())?;
    if let Found::Packet { size, .. } = found {
        let at = number::next(offered.configured, offered.pointers.read, 4);
        round::copy_out(ring, at, size, out);
    }
    Ok(found)
}

// What reading finds; nothing is copied yet. Pointers are multiples of 4, as the length is, so the four bytes of a
// header don't run over the ring's end.
#[tactic(auto, using(crate::proofs::Headers::header_straight), unfolding(crate::specs::Reading::found_of))]
fn find(most: usize, ring: &[u8], offered: Offered, output: usize) -> Result<Found, Refusal>
    ensures { found_in result ≡ found_at most ring.now offered output }
{
    if !number::set_up_right(most, offered.configured, ring.len()) {
        return Err(Refusal::Setup);
    }
    if output < 4 + most {
        return Err(Refusal::Room);
    }
    if !offered.is_readable() {
        return Err(Refusal::NotRunning);
    }
    let at = Pointed::new(offered.configured, offered.pointers)?;
    if at.read == at.write {
        return Ok(Found::Empty);
    }
    judge(most, at, octets::word_at::<HighFirst>(ring, at.read))
}

// What the header of a packet at the read pointer says.
#[tactic(auto, using(crate::proofs::Numbers::filled_below), unfolding(crate::specs::Reading::judged))]
fn judge(most: usize, at: Pointed, header: u32) -> Result<Found, Refusal>
    requires { most ≤ 246 }
    ensures { found_in result
        ≡ judged most at.length at.read (filled_of at.length at.read at.write) header }
{
    let whole = ((header / 1024 + 1) * 4) as usize;
    let padding = (header / 256 % 4) as usize;
    if at.filled() < whole || whole < 4 + padding {
        return Err(Refusal::BadPacket);
    }
    let next = number::next(at.length, at.read, whole);
    if header % 16 != 4 {
        return Ok(Found::Skipped {
            refusal: Refusal::OtherKind,
            next,
        });
    }
    let size = whole - 4 - padding;
    if !mctp::size_right(most, size) {
        return Ok(Found::Skipped {
            refusal: Refusal::Size,
            next,
        });
    }
    Ok(Found::Packet { size, next })
}
