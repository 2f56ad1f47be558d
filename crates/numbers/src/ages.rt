// How long a slot waits: limits at set-up, and a start with one packet more.
use crate::answers::{Progress, answered, done};
use crate::packets::{MEMORY, fresh, small};
use mctp::Eid;
use told::{Answer, Page};

// A start of one byte, and the packet that comes next.
const START: u8 = 0x88;

const NEXT: u8 = 0x18;

pub fn tell(page: &mut Page) {
    page.section("Old half-messages at EID 9, by a count of milliseconds");
    tell_limits(page);
    tell_packets(page);
}

fn tell_limits(page: &mut Page) {
    for (words, limit) in [
        ("limit 0: ", 0),
        ("limit 1: ", 1),
        ("limit 60000: ", 60000),
        ("limit 60001: ", 60001),
    ] {
        page.line(words, done(slots::set_up(Eid(9), limit).outcome));
    }
}

fn tell_packets(page: &mut Page) {
    for (words, start, byte, time) in [
        (
            "limit 1000, start at 0, next packet at 1000: ",
            0,
            NEXT,
            1000,
        ),
        (
            "limit 1000, start at 0, next packet at 1001: ",
            0,
            NEXT,
            1001,
        ),
        (
            "limit 1000, start at 0, the same start at 1000: ",
            0,
            START,
            1000,
        ),
        (
            "limit 1000, start at 0, the same start at 1001: ",
            0,
            START,
            1001,
        ),
        (
            "limit 1000, start at 4294967290, next packet at 994: ",
            4294967290,
            NEXT,
            994,
        ),
        (
            "limit 1000, start at 4294967290, next packet at 995: ",
            4294967290,
            NEXT,
            995,
        ),
        (
            "limit 1000, start at 1000, clock stepped back, next packet at 999: ",
            1000,
            NEXT,
            999,
        ),
        (
            "limit 1000, start at 5, a whole turn idle, next packet at 5: ",
            5,
            NEXT,
            5,
        ),
    ] {
        page.line(words, behind(start, byte, time));
    }
}

// The answer to the second packet.
fn behind(start: u32, byte: u8, time: u32) -> Answer<Progress> {
    let mut memory = MEMORY;
    let begun = receiver::give(fresh(), &mut memory, &small(START), start);
    answered(receiver::give(begun.receiver, &mut memory, &small(byte), time).answer)
}
