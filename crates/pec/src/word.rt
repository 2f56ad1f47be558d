// Words of eight bytes, and other words of the same remainder. The polynomial says that x^8 is x^2 + x + 1; squared
// again and again, x^16 is x^4 + x^2 + 1, x^32 is x^4 + x^2 + x, and x^64 is x^4 + x + 1.
ghost use Rattle.std.specs.Prelude.{◌≡◌, ◌<◌, length};
ghost use Rattle.pec.specs.Remainder.{pec_from};
ghost use Rattle.pec.specs.Words.{word_from, word_pec, number_at};

// A word with the remainder of w and the bytes s behind it: first those that make no whole word, then the words.
pub fn behind(w: u64, s: &[u8]) -> u64
    ensures { word_pec result ≡ pec_from (word_pec w) s.now }
{
    let (first, words) = s.as_rchunks::<8>();
    let mut all = shifted(w, first.len()) ^ number(first);
    for eight in words {
        all = shifted_word(all) ^ u64::from_be_bytes(*eight);
    }
    all
}

// The word w with n zero bytes behind it. What they move past the top is taken × x^64.
fn shifted(w: u64, n: usize) -> u64
    requires { n < 8 }
    ensures { word_pec result ≡ word_from (word_pec w) n 0 }
{
    if n == 0 {
        return w;
    }
    let over = w >> (64 - 8 * n);
    over << 4 ^ over << 1 ^ over ^ w << (8 * n)
}

// The word w with eight zero bytes behind it: w × x^64. What x^4 and x move past the top is taken × x^64 too.
fn shifted_word(w: u64) -> u64
    ensures { word_pec result ≡ word_from (word_pec w) 8 0 }
{
    let over = w >> 60 ^ w >> 63;
    w << 4 ^ w << 1 ^ w ^ over << 4 ^ over << 1 ^ over
}

// The word w folded to sixteen bits: what stands above 32 bits is taken × x^32, then above 16 bits × x^16, twice.
pub fn folded(w: u64) -> u16
    ensures { word_pec result ≡ word_pec w }
{
    let a = w >> 32;
    let b = w % 4294967296 ^ a << 4 ^ a << 2 ^ a << 1;
    let c = b >> 16;
    let d = b % 65536 ^ c << 4 ^ c << 2 ^ c;
    let e = d >> 16;
    ((d ^ e << 4 ^ e << 2 ^ e) % 65536) as u16
}

// Bytes that make no whole word as a number, the highest first.
fn number(s: &[u8]) -> u64
    requires { length s.now < 8 }
    ensures { result ≡ number_at s.now 0 (length s.now) }
{
    let mut w: u64 = 0;
    for b in s {
        w = w * 256 + u64::from(*b);
    }
    w
}
