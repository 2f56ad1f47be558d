// The MMBI descriptor, and the sizes of a window that holds what it tells of.
ghost use Rattle.std.specs.Prelude.{◌≤◌};

use crate::bytes::Bytes;
use crate::windows;
use told::{Answer, Good, Page};

// Version 1, buffer type 1, B2H of 128 bytes at base 16, H2B of 256 bytes at base 32, Host_ROS at base 8,
// Host_RWS at base 9.
pub const DESCRIPTOR: &[u8; 40] =
    b"#MMBI$\x01\0\0\0\0\x10\0\0\0\x20\0\0\0\x80\0\0\x01\0\x01\0\0\0\0\0\0\0\0\0\0\x08\0\0\0\x09";

// The base of byte 4,294,967,288: with a length of 65,536 added it passes 32 bits, where the sum would be 65,528 and
// lie in the larger window.
const FAR: u32 = 536870911;

// Where the ring to the host has its base, and where the ring to the controller. The length stands 8 bytes behind.
const TO_HOST: usize = 8;

const TO_CONTROLLER: usize = 12;

pub fn tell(page: &mut Page) {
    page.section("MMBI descriptor");
    page.line("descriptor bytes 0 to 39:", Bytes(DESCRIPTOR));
    page.line(
        "descriptor in a window of 512 bytes: ",
        read(512, TO_HOST, 16, 128),
    );
    windows::tell_areas(page);
    for (words, answer) in [
        (
            "descriptor in a window of 63 bytes: ",
            read(63, TO_HOST, 16, 128),
        ),
        (
            "descriptor in a window of 511 bytes, which cuts the second ring: ",
            read(511, TO_HOST, 16, 128),
        ),
        (
            "descriptor in a window of 65536 bytes: ",
            read(65536, TO_HOST, 16, 128),
        ),
        (
            "descriptor with the ring to the host of 131200 bytes, 00 02 00 80, in a window of 65536 bytes: ",
            read(65536, TO_HOST, 16, 131200),
        ),
    ] {
        page.line(words, answer);
    }
    tell_far(page);
}

fn tell_far(page: &mut Page) {
    for (words, answer) in [
        (
            "descriptor with the ring to the host at base 536870911, length 65536, in a window of 512 bytes: ",
            read(512, TO_HOST, FAR, 65536),
        ),
        (
            "descriptor with the ring to the host at base 536870911, length 65536, in a window of 65536 bytes: ",
            read(65536, TO_HOST, FAR, 65536),
        ),
        (
            "descriptor with the ring to the controller at base 536870911, length 65536, in a window of 512 bytes: ",
            read(512, TO_CONTROLLER, FAR, 65536),
        ),
        (
            "descriptor with the ring to the controller at base 536870911, length 65536, in a window of 65536 bytes: ",
            read(65536, TO_CONTROLLER, FAR, 65536),
        ),
    ] {
        page.line(words, answer);
    }
}

// What is read where so many bytes are lent, and the ring whose base stands at a byte has this base and this length.
fn read(size: usize, at: usize, base: u32, length: u32) -> Answer<Good>
    requires size { size ≤ 65536 }
    requires at { at ≤ 12 }
{
    let mut window = [0; 65536];
    window[..40].copy_from_slice(DESCRIPTOR);
    window[at..at + 4].copy_from_slice(&base.to_be_bytes());
    window[at + 8..at + 12].copy_from_slice(&length.to_be_bytes());
    Answer(descriptor::read_descriptor(&window[..size]).map(|_| Good))
}
