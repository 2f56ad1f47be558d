// The bytes of the MMBI ring, all FF before a packet is written.
use crate::ORDER;
use crate::bytes::Bytes;
use mctp::Refusal;
use mmbi::{Flags, Pointers};
use ring::{Found, Offered};
use std::fmt;
use told::{Answer, Page, Refused};

const EMPTY: [u8; 128] = [0xFF; 128];

pub fn tell(page: &mut Page) {
    page.section("MMBI ring of 128 bytes, all FF before");
    page.line(
        "ring packet 01 09 0A C8 00 written with read 0, write 0: ",
        Answer(write(running(0, 0))),
    );
    let bytes = holding(0);
    page.line("ring bytes 0 to 11:", Bytes(&bytes[..12]));
    page.line("ring bytes 12 to 15:", Bytes(&bytes[12..16]));
    tell_read(page, &bytes);
    tell_written(page);
    tell_over_the_end(page);
}

fn tell_read(page: &mut Page, bytes: &[u8]) {
    for (words, offered) in [
        ("ring read with read 0, write 12: ", running(0, 12)),
        ("ring read with read 12, write 12: ", running(12, 12)),
        (
            "ring read with read 0, write 8, which cuts the packet: ",
            running(0, 8),
        ),
        ("ring read with read 2, write 12: ", running(2, 12)),
        ("ring read with read 0, write 128: ", running(0, 128)),
        (
            "ring read with read 0, write 12, while the host asks for a reset: ",
            offer(0, 12, Flags::ASKED_BY_HOST),
        ),
        (
            "ring read with read 0, write 12, while the controller asks for a reset: ",
            offer(0, 12, Flags::ASKED_BY_CONTROLLER),
        ),
        (
            "ring read with read 0, write 12, once the reset is acknowledged: ",
            offer(0, 12, Flags::ACKNOWLEDGED),
        ),
    ] {
        page.line(words, Answer(read(bytes, offered)));
    }
}

fn tell_written(page: &mut Page) {
    for (words, offered) in [
        (
            "ring packet 01 09 0A C8 00 written with read 0, write 0, while the host asks for a reset: ",
            offer(0, 0, Flags::ASKED_BY_HOST),
        ),
        (
            "ring packet 01 09 0A C8 00 written with read 0, write 0, while the controller asks for a reset: ",
            offer(0, 0, Flags::ASKED_BY_CONTROLLER),
        ),
        (
            "ring packet 01 09 0A C8 00 written with read 12, write 0, which leaves room for 8: ",
            running(12, 0),
        ),
        (
            "ring packet 01 09 0A C8 00 written with read 16, write 0, which leaves room for 12: ",
            running(16, 0),
        ),
        (
            "ring packet 01 09 0A C8 00 written with read 120, write 120, over the end: ",
            running(120, 120),
        ),
    ] {
        page.line(words, Answer(write(offered)));
    }
}

fn tell_over_the_end(page: &mut Page) {
    let bytes = holding(120);
    let (front, end) = bytes.split_at(120);
    page.line("ring bytes 120 to 127:", Bytes(end));
    page.line("ring bytes 0 to 3:", Bytes(&front[..4]));
    page.line(
        "ring read with read 120, write 4: ",
        Answer(read(&bytes, running(120, 4))),
    );
}

fn offer(read: usize, write: usize, flags: Flags) -> Offered {
    Offered {
        configured: 128,
        flags,
        pointers: Pointers { read, write },
    }
}

fn running(read: usize, write: usize) -> Offered {
    offer(read, write, Flags::NORMAL_RUNTIME)
}

// The new write pointer of a packet that was written.
#[derive(Drop)]
struct Stored(usize);

impl fmt::Display for Stored {
    fn fmt<W: fmt::Write>(&self, f: &mut fmt::Formatter<W>) -> fmt::Result {
        write!(f, "good, new write pointer {}", self.0)
    }
}

fn write(offered: Offered) -> Result<Stored, Refusal> {
    let mut bytes = EMPTY;
    ring::write(&mut bytes, offered, &ORDER).map(Stored)
}

// A ring whose packet was written at this pointer.
fn holding(pointer: usize) -> [u8; 128] {
    let mut bytes = EMPTY;
    let _ = ring::write(&mut bytes, running(pointer, pointer), &ORDER);
    bytes
}

// What was found in a ring, and the packet copied out.
#[derive(Drop)]
struct Taken {
    found: Found,
    packet: [u8; 68],
}

impl fmt::Display for Taken {
    fn fmt<W: fmt::Write>(&self, f: &mut fmt::Formatter<W>) -> fmt::Result {
        match self.found {
            Found::Empty => write!(f, "empty"),
            Found::Skipped { refusal, next } => {
                write!(f, "{}, new read pointer {next}", Refused(refusal))
            }
            Found::Packet { size, next } => {
                let packet = Bytes(&self.packet[..size.min(68)]);
                write!(f, "good, packet{packet}, new read pointer {next}")
            }
        }
    }
}

fn read(bytes: &[u8], offered: Offered) -> Result<Taken, Refusal> {
    let mut packet = [0; 68];
    let found = ring::read(bytes, offered, &mut packet)?;
    Ok(Taken { found, packet })
}
