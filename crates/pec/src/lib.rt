// The PEC of SMBus: the check byte that a frame ends with. Eight bytes are passed at a time, by shifts and sums; the
// remainder of the word that is left is read from the table.
#![tactic(auto)]

mod lookup;
mod word;

ghost use Rattle.std.specs.Prelude.{◌≡◌, ◌++◌};
ghost use Rattle.pec.specs.Remainder.{pec_of};

// The check byte of s: the remainder of all its bytes.
pub fn pec(s: &[u8]) -> u8
    ensures { result ≡ pec_of s.now }
{
    lookup::remainder(word::behind(0, s))
}

// The check byte of three pieces, one behind the other: who puts them together need not read what was just stored.
pub fn pec_apart(head: &[u8], header: &[u8], body: &[u8]) -> u8
    ensures { result ≡ pec_of (head.now ++ header.now ++ body.now) }
{
    let begun = word::behind(0, head);
    lookup::remainder(word::behind(word::behind(begun, header), body))
}
