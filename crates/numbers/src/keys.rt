// Keys and slots: five messages that differ in their tags, and four slots.
use crate::answers::{answered_after, done};
use crate::packets::Call::{Free, Small};
use crate::packets::{Call, fresh, small};
use told::Page;

// Four starts, the fifth that finds no slot, slot 2 freed, and the fifth again.
const STARTS: [Call; 7] = [
    Small(0x88),
    Small(0x89),
    Small(0x8A),
    Small(0x8B),
    Small(0x8C),
    Free(2),
    Small(0x8C),
];

pub fn tell(page: &mut Page) {
    for (words, calls, byte) in [
        ("first key: ", &STARTS[..0], 0x88),
        ("second key: ", &STARTS[..1], 0x89),
        ("third key: ", &STARTS[..2], 0x8A),
        ("fourth key: ", &STARTS[..3], 0x8B),
        ("fifth key: ", &STARTS[..4], 0x8C),
        ("fifth key after slot 2 is freed: ", &STARTS[..6], 0x8C),
        ("fifth key started over: ", &STARTS[..7], 0x8C),
    ] {
        page.line(words, answered_after(calls, &small(byte)));
    }
    page.line("slot 3 freed: ", done(slots::free(fresh(), 3).outcome));
    page.line("slot 4 freed: ", done(slots::free(fresh(), 4).outcome));
}
