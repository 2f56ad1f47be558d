// The words of Host_ROS (byte 64) and Host_RWS (byte 72) one bit at a time, and what a store answers and leaves there.
use crate::bytes::Bytes;
use crate::windows::{FourPointers, Window};
use mctp::Refusal;
use mmbi::Word;
use std::fmt;
use told::{Answer, Page, Refused};
use window::{Interface, Pointer};

pub fn tell_bits(page: &mut Page) {
    page.section("MMBI words one bit at a time");
    for (words, at, bits) in [
        ("bit 1 of H2B_WP's word:", 75, 2),
        ("bit 0 of H2B_WP's word:", 75, 1),
        (
            "bit 1 of B2H_RP's word is reserved, and sets nothing:",
            79,
            2,
        ),
        ("bit 0 of B2H_RP's word:", 79, 1),
        ("bit 1 of B2H_WP's word:", 67, 2),
        ("bit 0 of B2H_WP's word:", 67, 1),
        (
            "bit 1 of H2B_RP's word is reserved, and sets nothing:",
            71,
            2,
        ),
        ("bit 0 of H2B_RP's word:", 71, 1),
    ] {
        page.line(words, Answer(with_bits(at, bits)));
    }
    page.line(
        "bytes 01 to 10 in Host_ROS and Host_RWS: ",
        Answer(with_bytes()),
    );
}

pub fn tell_stores(page: &mut Page) {
    page.section("MMBI words stored with both bits set, and Host_ROS and Host_RWS then");
    for (words, which, pointer) in [
        ("H2B write pointer 252: ", Pointer::H2bWrite, 252),
        ("B2H read pointer 124: ", Pointer::B2hRead, 124),
        ("B2H write pointer 124: ", Pointer::B2hWrite, 124),
        ("H2B read pointer 252: ", Pointer::H2bRead, 252),
        (
            "H2B write pointer 254, no multiple of 4: ",
            Pointer::H2bWrite,
            254,
        ),
        (
            "H2B write pointer 256, the ring's length: ",
            Pointer::H2bWrite,
            256,
        ),
        (
            "B2H write pointer 128, the ring's length: ",
            Pointer::B2hWrite,
            128,
        ),
    ] {
        page.line(words, Answer(store(which, pointer)));
    }
}

// The flags that stand in the words.
#[derive(Drop)]
struct Flagged(Interface);

impl fmt::Display for Flagged {
    fn fmt<W: fmt::Write>(&self, f: &mut fmt::Formatter<W>) -> fmt::Result {
        let seen = self.0;
        for (is_set, name) in [
            (seen.flags.controller_up, " B_UP"),
            (seen.flags.controller_reset, " B_RST"),
            (seen.controller_ready, " B_RDY"),
            (seen.flags.host_up, " H_UP"),
            (seen.flags.host_reset, " H_RST"),
            (seen.host_ready, " H_RDY"),
        ] {
            if is_set {
                f.write_str(name)?;
            }
        }
        Ok(())
    }
}

// A window in which only this byte of the words is not 0.
fn with_bits(at: u8, bits: u8) -> Result<Flagged, Refusal> {
    let window = Window::with(usize::from(at), &[bits])?;
    Ok(Flagged(window::interface_of(&window.bytes, window.c)))
}

// A window in which the words are the bytes 1 to 16.
fn with_bytes() -> Result<FourPointers, Refusal> {
    let bytes = [1, 2, 3, 4, 5, 6, 7, 8, 9, 10, 11, 12, 13, 14, 15, 16];
    let window = Window::with(64, &bytes)?;
    Ok(FourPointers(window::interface_of(&window.bytes, window.c)))
}

// What a store answered, and the window behind it.
#[derive(Drop)]
struct Tried {
    answer: Result<(), Refusal>,
    bytes: [u8; 512],
}

impl fmt::Display for Tried {
    fn fmt<W: fmt::Write>(&self, f: &mut fmt::Formatter<W>) -> fmt::Result {
        match self.answer {
            Ok(()) => write!(f, "stored")?,
            Err(why) => Refused(why).fmt(f)?,
        }
        write!(f, ", then{}", Bytes(&self.bytes[64..80]))
    }
}

// A pointer stored with both bits set.
fn store(which: Pointer, pointer: usize) -> Result<Tried, Refusal> {
    let Window { mut bytes, c } = Window::with(40, &[])?;
    let word = Word {
        pointer,
        bit1: true,
        bit0: true,
    };
    let answer = window::store(&mut bytes, c, which, word);
    Ok(Tried { answer, bytes })
}
