// Words of four bytes, in both byte orders.
ghost use Rattle.std.specs.Prelude.{◌≡◌};
ghost use Rattle.octets.specs.Words.{Order, low_first, high_first, word_at, word_bytes};
ghost use Rattle.octets.specs.Bytes.{laid};

use crate::copy::lay_byte;
use crate::read::{byte_at, part};

// Which byte of a word stands first; the library's conversion for that order.
pub trait ByteOrder {
    ghost order: { Order };

    fn word(bytes: [u8; 4]) -> u32
        ensures { result ≡ word_at order bytes 0 };

    fn bytes(w: u32) -> [u8; 4]
        ensures { result ≡ word_bytes order w };
}

// The lowest byte first, as PCC's words stand.
pub struct LowFirst;

impl ByteOrder for LowFirst {
    ghost order = { low_first };

    fn word(bytes: [u8; 4]) -> u32 {
        u32::from_le_bytes(bytes)
    }

    fn bytes(w: u32) -> [u8; 4] {
        w.to_le_bytes()
    }
}

// The highest byte first, as MMBI's words stand (003, 4.2: "Big Endian").
pub struct HighFirst;

impl ByteOrder for HighFirst {
    ghost order = { high_first };

    fn word(bytes: [u8; 4]) -> u32 {
        u32::from_be_bytes(bytes)
    }

    fn bytes(w: u32) -> [u8; 4] {
        w.to_be_bytes()
    }
}

// The word at place `at`; bytes past the end count as 0.
pub fn word_at<O: ByteOrder>(s: &[u8], at: usize) -> u32
    ensures { result ≡ word_at O.order s.now at }
{
    let four = part(s, at, 4);
    O::word([
        byte_at(four, 0),
        byte_at(four, 1),
        byte_at(four, 2),
        byte_at(four, 3),
    ])
}

// The word's four bytes laid over `out` from place `at` on: one store where they fit. They are not laid by `lay`: of
// four bytes at hand, of which some fall off, the compiler would make a call of memcpy.
pub fn lay_word<O: ByteOrder>(out: &mut [u8], at: usize, w: u32)
    ensures { out.new ≡ laid out.old at (word_bytes O.order w) }
{
    let bytes = O::bytes(w);
    if out.len() <= at {
        return;
    }
    if 4 <= out.len() - at {
        out[at..at + 4].copy_from_slice(&bytes);
    } else {
        let [a, b, c, d] = bytes;
        lay_byte(out, at, a);
        lay_byte(out, at + 1, b);
        lay_byte(out, at + 2, c);
        lay_byte(out, at + 3, d);
    }
}
