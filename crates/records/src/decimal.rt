// Decimal numbers in ASCII, with no digit more than they need.
ghost use Rattle.std.specs.Prelude.{◌≡◌, ◌+◌, ◌%◌, ◌≤◌, length};
ghost use Rattle.octets.specs.Bytes.{laid};
ghost use Rattle.records.specs.Decimal.{decimal};

// How many digits `n` has: 1 to 20.
pub fn count_digits(n: u64) -> usize
    ensures count { result ≡ length (decimal n) }
    ensures few { result ≤ 20 }
{
    if n == 0 { 1 } else { n.ilog10() as usize + 1 }
}

// The digits of `n` laid over `out` from place `at` on, and how many they are; what would lie past the end falls off.
// From the last digit to the first: each is what is left over in a division by ten.
pub fn lay_decimal(out: &mut [u8], at: usize, n: u64) -> usize
    ensures count { result ≡ length (decimal n) }
    ensures few { result ≤ 20 }
    ensures output { out.new ≡ laid out.old at (decimal n) }
{
    let count = count_digits(n);
    if at < out.len() {
        let mut rest = n;
        for place in (at + 1..at + count).rev() {
            octets::lay_byte(out, place, digit(rest));
            rest /= 10;
        }
        octets::lay_byte(out, at, digit(rest));
    }
    count
}

// The letter of the last digit.
fn digit(n: u64) -> u8
    ensures { result ≡ 48 + n % 10 }
{
    b'0' + (n % 10) as u8
}
