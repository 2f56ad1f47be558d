// Bytes copied out of the ring and into it, in one run, or in two where they run over its end.
ghost use Rattle.std.specs.Prelude.{◌≡◌, ◌≤◌, ◌<◌, length, take, replicate};
ghost use Rattle.octets.specs.Bytes.{fronted};
ghost use Rattle.ring.specs.Round.{round_from, stored};

use crate::number;

// `n` bytes from place `at` on, to the output's front.
pub fn copy_out(ring: &[u8], at: usize, n: usize, out: &mut [u8])
    requires { (at < length ring.now) × (n ≤ length ring.now) × (n ≤ length out.old) }
    ensures { out.new ≡ fronted out.old (take n (round_from at ring.now)) }
{
    let straight = ring.len() - at;
    if n <= straight {
        octets::lay(out, 0, &ring[at..at + n]);
    } else {
        octets::lay(out, 0, &ring[at..]);
        octets::lay(out, straight, &ring[..n - straight]);
    }
}

// The bytes stored from place `at` on.
pub fn copy_in(ring: &mut [u8], at: usize, bytes: &[u8])
    requires { (at < length ring.old) × (length bytes.now ≤ length ring.old) }
    ensures { ring.new ≡ stored ring.old at bytes.now }
{
    let straight = ring.len() - at;
    if bytes.len() <= straight {
        octets::lay(ring, at, bytes);
    } else {
        octets::lay(ring, at, &bytes[..straight]);
        octets::lay(ring, 0, &bytes[straight..]);
    }
}

// `n` zeros stored from place `at` on, one by one: for a run of zeros the compiler calls memset, which firmware without
// a C library doesn't have. A padding is three at most.
pub fn pad(ring: &mut [u8], at: usize, n: usize)
    requires { (length ring.old ≤ 65536) × (at < length ring.old) × (n ≤ length ring.old) }
    ensures { ring.new ≡ stored ring.old at (replicate n 0) }
{
    let lent = ring.len();
    for k in 0..n {
        octets::lay_byte(ring, number::next(lent, at, k), 0);
    }
}
