// A copy into the middle of a lent list: the rest stays as it was.
ghost use Rattle.std.specs.Prelude.{◌≡◌, [], ◌∷◌};
ghost use Rattle.octets.specs.Bytes.{laid};

// One byte stored at place `at`; past the end nothing is stored.
pub fn lay_byte(out: &mut [u8], at: usize, b: u8)
    ensures { out.new ≡ laid out.old at (b ∷ []) }
{
    if at < out.len() {
        out[at] = b;
    }
}

// The bytes of `new` laid over `out` from place `at` on; what would lie past the end falls off. Byte after byte: the
// compiler copies in wide pieces all the same, and calls no memmove, which firmware without a C library doesn't have.
pub fn lay(out: &mut [u8], at: usize, new: &[u8])
    ensures { out.new ≡ laid out.old at new.now }
{
    if at < out.len() {
        if new.len() <= out.len() - at {
            for i in 0..new.len() {
                out[at + i] = new[i];
            }
        } else {
            for k in 0..out.len() - at {
                lay_byte(out, at + k, new[k]);
            }
        }
    }
}
