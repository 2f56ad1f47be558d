// The ring's numbers: what 1 and 12 ask, what is filled, what is left, and the pointer after so many bytes.
ghost use Rattle.std.specs.Prelude.{◌≡◌, ◌+◌, ◌%◌, ◌≤◌, ◌<◌, true, false, MatchResult};
ghost use Rattle.mctp.specs.declared.refusal.Refusal.{Refusal};
ghost use Rattle.mmbi.specs.Pointers.{length_right};
ghost use Rattle.ring.specs.Numbers.{set_up_right, pointers_right, filled_of, room_of, next_of};

use mctp::Refusal;
use mmbi::Pointers;

// What 1 asks of the largest body, the configured length and that of the lent ring.
pub fn set_up_right(most: usize, length: usize, lent: usize) -> bool
    ensures { result ≡ set_up_right most length lent }
{
    mctp::body_right(most) && mmbi::length_right(length) && length == lent
}

// A ring's length, as 1 lets it through, and its pointers, as 12 does.
#[derive(Clone, Copy, PartialEq, Eq)]
pub struct Pointed {
    pub length: usize,
    pub read: usize,
    pub write: usize,
    ghost within: { (length ≤ 65536) × (read < length) × (write < length) },
    ghost fours: { (length % 4 ≡ 0) × (read % 4 ≡ 0) × (write % 4 ≡ 0) },
}

impl Pointed {
    // What 12 asks of the pointers.
    pub fn new(length: usize, pointers: Pointers) -> Result<Pointed, Refusal>
        requires { length_right length ≡ true }
        ensures right { MatchResult result
            (λ _. pointers_right length pointers.read pointers.write ≡ true)
            (λ _. pointers_right length pointers.read pointers.write ≡ false) }
        ensures kept { MatchResult result
            (λ p. (p.length ≡ length) × (p.read ≡ pointers.read) × (p.write ≡ pointers.write))
            (λ why. why ≡ Refusal.Pointer) }
    {
        let Pointers { read, write } = pointers;
        if !(mmbi::pointer_right(length, read) && mmbi::pointer_right(length, write)) {
            return Err(Refusal::Pointer);
        }
        Ok(Pointed {
            length,
            read,
            write,
        })
    }

    // "Filled is (write − read) modulo the ring length": where the write pointer stands before the read pointer, one
    // length is added.
    #[tactic(auto, using(crate::proofs::Numbers::filled_near, crate::proofs::Numbers::filled_over))]
    pub fn filled(self) -> usize
        ensures { result ≡ filled_of self.length self.read self.write }
    {
        if self.read <= self.write {
            self.write - self.read
        } else {
            self.length + self.write - self.read
        }
    }

    // "Room is length − filled − 4 (house rule), so a full ring never looks empty."
    #[tactic(auto, using(crate::proofs::Numbers::room_left), unfolding(crate::specs::Numbers::room_of))]
    pub fn room(self) -> usize
        ensures { result ≡ room_of self.length self.read self.write }
    {
        self.length - self.filled() - 4
    }
}

// The pointer `n` bytes after another, round the ring's end. One subtraction is enough, as a pointer is below the
// length and what is added is at most the length.
#[tactic(auto, using(crate::proofs::Numbers::next_near, crate::proofs::Numbers::next_over))]
pub fn next(length: usize, pointer: usize, n: usize) -> usize
    requires { (length ≤ 65536) × (pointer < length) × (n ≤ length) }
    ensures { result ≡ next_of length pointer n }
{
    let after = pointer + n;
    if after < length {
        after
    } else {
        after - length
    }
}
