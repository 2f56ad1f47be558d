// What the front panel shows, call by call: packets with bodies of 64 bytes, and a slot freed.
use crate::packets::Call::{Free, Large};
use crate::packets::{Call, MEMORY, after};
use slots::Tallies;
use std::fmt;
use told::Page;

const CALLS: [Call; 8] = [
    Large(0x88),
    Large(0x88),
    Large(0x89),
    Large(0x18),
    Large(0x0A),
    Large(0x29),
    Free(0),
    Large(0xCB),
];

pub fn tell(page: &mut Page) {
    page.section("The front panel at EID 9, with bodies of 64 bytes");
    for (words, calls) in [
        ("panel at set-up: ", &CALLS[..0]),
        ("panel after a start: ", &CALLS[..1]),
        ("panel after the same start again: ", &CALLS[..2]),
        ("panel after a start of another key: ", &CALLS[..3]),
        ("panel after a middle of the first: ", &CALLS[..4]),
        ("panel after a packet without a start: ", &CALLS[..5]),
        (
            "panel after one of the second out of sequence: ",
            &CALLS[..6],
        ),
        ("panel after slot 0 is freed: ", &CALLS[..7]),
        ("panel after a message of one packet: ", &CALLS[..8]),
    ] {
        let receiver = after(calls, &mut MEMORY);
        page.line(words, Panel(slots::tallies_of(receiver)));
    }
}

// The four tallies.
#[derive(Drop)]
struct Panel(Tallies);

impl fmt::Display for Panel {
    fn fmt<W: fmt::Write>(&self, f: &mut fmt::Formatter<W>) -> fmt::Result {
        let tallies = self.0;
        write!(
            f,
            "gathering {}, bytes held {}",
            tallies.gathering, tallies.held
        )?;
        write!(
            f,
            ", packets offered {}, messages done {}",
            tallies.offered, tallies.done
        )
    }
}
