// The fields of a packet's header, and the EIDs that an endpoint can have.
use crate::answers::{Progress, answered, done};
use crate::packets::{MEMORY, ORDER, fresh};
use mctp::{Eid, Header};
use std::fmt;
use told::{Answer, Good, Page};

pub fn tell(page: &mut Page) {
    page.section("Headers and EIDs");
    page.line(
        "header F1 09 0A BD: ",
        Fields(mctp::header_of(b"\xF1\x09\x0A\xBD")),
    );
    for (words, eid) in [
        ("own EID 0: ", 0),
        ("own EID 1: ", 1),
        ("own EID 7: ", 7),
        ("own EID 8: ", 8),
        ("own EID 254: ", 254),
        ("own EID 255: ", 255),
    ] {
        page.line(words, own(eid));
    }
    for (words, eid) in [
        ("packet from EID 0: ", 0),
        ("packet from EID 1: ", 1),
        ("packet from EID 7: ", 7),
        ("packet from EID 8: ", 8),
        ("packet from EID 254: ", 254),
        ("packet from EID 255: ", 255),
    ] {
        page.line(words, from(eid));
    }
}

// A packet's header, field by field. In F1 09 0A BD the first four bits are reserved, and BD is 1011 1101.
#[derive(Drop)]
pub struct Fields(pub Header);

impl fmt::Display for Fields {
    fn fmt<W: fmt::Write>(&self, f: &mut fmt::Formatter<W>) -> fmt::Result {
        let header = self.0;
        let key = header.key;
        write!(f, "version {}", header.version)?;
        if header.start {
            write!(f, ", start")?;
        }
        if header.end {
            write!(f, ", end")?;
        }
        write!(
            f,
            ", sequence {}, to {}",
            header.sequence, key.destination.0
        )?;
        write!(f, ", from {}", key.source.0)?;
        if key.owner {
            write!(f, ", tag owner")?;
        }
        write!(f, ", tag {}", key.tag)
    }
}

// A receiver set up with this EID of its own.
fn own(eid: u8) -> Answer<Good> {
    done(slots::set_up(Eid(eid), 1000).outcome)
}

// A packet from this EID.
fn from(eid: u8) -> Answer<Progress> {
    let mut packet = ORDER;
    packet[2] = eid;
    answered(receiver::give(fresh(), &mut MEMORY, &packet, 0).answer)
}
