// A message of one packet, and one that fills its slot to the last byte.
use crate::answers::{Progress, answered, answered_after};
use crate::packets::Call::Large;
use crate::packets::{Call, MEMORY, after, large, small};
use told::{Answer, Page};

// 16 packets that go on from one another, the first with start.
const BODIES: [Call; 16] = [
    Large(0x88),
    Large(0x18),
    Large(0x28),
    Large(0x38),
    Large(0x08),
    Large(0x18),
    Large(0x28),
    Large(0x38),
    Large(0x08),
    Large(0x18),
    Large(0x28),
    Large(0x38),
    Large(0x08),
    Large(0x18),
    Large(0x28),
    Large(0x38),
];

pub fn tell(page: &mut Page) {
    page.section("Messages at EID 9");
    page.line(
        "message of one packet 01 09 0A C8 00: ",
        answered_after(&[], &small(0xC8)),
    );
    page.line(
        "message of 16 bodies of 64, the last not yet the end: ",
        answered_after(&BODIES[..15], &large(0x38)),
    );
    page.line(
        "message of 1024 held and one byte more: ",
        answered_after(&BODIES, &small(0x48)),
    );
    page.line(
        "message slot after that, asked by one more packet: ",
        dropped(),
    );
    page.line(
        "message of 16 bodies of 64, the last the end: ",
        answered_after(&BODIES[..15], &large(0x78)),
    );
}

// A packet after 16 bodies and the byte that was too many.
fn dropped() -> Answer<Progress> {
    let mut memory = MEMORY;
    let full = after(&BODIES, &mut memory);
    let over = receiver::give(full, &mut memory, &small(0x48), 0);
    answered(receiver::give(over.receiver, &mut memory, &small(0x58), 0).answer)
}
