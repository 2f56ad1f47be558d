// The sizes of SMBus frames and packets.
ghost use Rattle.std.specs.Prelude.{◌≤◌};

use mctp::Refusal;
use smbus::Packet;
use std::fmt;
use told::{Answer, Page, SmbusPacket};

// One byte more than the longest packet has.
const TOO_LONG: [u8; 69] = [0; 69];

pub fn tell(page: &mut Page) {
    page.section("SMBus");
    for (words, found) in [
        ("smbus frame of 9 bytes: ", read::<9>()),
        ("smbus frame of 10 bytes: ", read::<10>()),
        ("smbus frame of 73 bytes: ", read::<73>()),
        ("smbus frame of 74 bytes: ", read::<74>()),
    ] {
        page.line(words, Answer(found));
    }
    for (words, packet) in [
        ("smbus packet of 4 bytes written: ", &TOO_LONG[..4]),
        ("smbus packet of 5 bytes written: ", &TOO_LONG[..5]),
        ("smbus packet of 68 bytes written: ", &TOO_LONG[..68]),
        ("smbus packet of 69 bytes written: ", &TOO_LONG),
    ] {
        page.line(words, Answer(write(packet)));
    }
}

// A frame of N bytes that is right in all but, perhaps, its size: its count counts all but four.
fn read<const N: usize>() -> Result<SmbusPacket, Refusal>
    requires { (9 ≤ N) × (N ≤ 259) }
{
    let mut frame = [0u8; N];
    frame[..8].copy_from_slice(b"\x40\x0F\x00\x23\x01\x09\x0A\xC8");
    frame[2] = (N - 4) as u8;
    frame[N - 1] = pec::pec(&frame[..N - 1]);
    let Packet { source } = smbus::read(&frame, 32)?;
    let size = smbus::part(&frame).len();
    Ok(SmbusPacket { size, source })
}

// The size of the frame that a packet was written as.
#[derive(Drop)]
struct Frame(usize);

impl fmt::Display for Frame {
    fn fmt<W: fmt::Write>(&self, f: &mut fmt::Formatter<W>) -> fmt::Result {
        write!(f, "good, frame of {} bytes", self.0)
    }
}

fn write(packet: &[u8]) -> Result<Frame, Refusal> {
    smbus::write(&mut [0; 74], packet, 32, 17).map(Frame)
}
