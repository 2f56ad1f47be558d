// What lies in the window by the descriptor: rings, structures and words.
ghost use Rattle.std.specs.Prelude.{◌+◌, ◌≤◌, length};

use crate::bytes::Bytes;
use crate::descriptors::DESCRIPTOR;
use descriptor::{Area, Configuration, Place};
use mctp::Refusal;
use mmbi::{InterfaceState, Word};
use std::fmt;
use told::{Answer, Page};
use window::{Interface, Pointer};

// A window of 512 bytes with the descriptor at its front, and what was read there.
#[derive(Drop)]
pub struct Window {
    pub bytes: [u8; 512],
    pub c: Configuration,
}

impl Window {
    // One with these bytes laid at a place behind the descriptor, and no others.
    pub fn with(at: usize, laid: &[u8]) -> Result<Window, Refusal>
        requires { at + length laid.now ≤ 512 }
    {
        let mut bytes = [0; 512];
        bytes[..40].copy_from_slice(DESCRIPTOR);
        bytes[at..at + laid.len()].copy_from_slice(laid);
        let c = descriptor::read_descriptor(&bytes)?;
        Ok(Window { bytes, c })
    }

    // One with a word stored for each pointer.
    fn stored() -> Result<Window, Refusal> {
        let Window { mut bytes, c } = Window::with(40, &[])?;
        for (which, word) in [
            (Pointer::H2bWrite, word(12, true, false)),
            (Pointer::B2hRead, word(8, false, true)),
            (Pointer::B2hWrite, word(20, true, false)),
            (Pointer::H2bRead, word(0, false, true)),
        ] {
            window::store(&mut bytes, c, which, word)?;
        }
        Ok(Window { bytes, c })
    }
}

fn word(pointer: usize, bit1: bool, bit0: bool) -> Word {
    Word {
        pointer,
        bit1,
        bit0,
    }
}

pub fn tell_areas(page: &mut Page) {
    for (words, which) in [
        ("descriptor ring to the host: ", Area::B2h),
        ("descriptor ring to the controller: ", Area::H2b),
        ("descriptor Host_ROS: ", Area::Ros),
        ("descriptor Host_RWS: ", Area::Rws),
    ] {
        page.line(words, Answer(place(which)));
    }
}

pub fn tell_words(page: &mut Page) {
    page.section("MMBI words in the window of 512 bytes");
    page.line(
        "words H2B write pointer 12, host up, and B2H read pointer 8, host ready, are Host_RWS",
        Answer(bytes_of(Area::Rws)),
    );
    page.line(
        "words B2H write pointer 20, controller up, and H2B read pointer 0, controller ready, are Host_ROS",
        Answer(bytes_of(Area::Ros)),
    );
    page.line("words read back: ", Answer(read_back()));
}

// Where an area lies.
#[derive(Drop)]
struct Lies(Place);

impl fmt::Display for Lies {
    fn fmt<W: fmt::Write>(&self, f: &mut fmt::Formatter<W>) -> fmt::Result {
        write!(f, "{} bytes from byte {} on", self.0.length, self.0.offset)
    }
}

fn place(which: Area) -> Result<Lies, Refusal> {
    let stored = Window::stored()?;
    Ok(Lies(window::place_of(&stored.bytes, stored.c, which)))
}

// The bytes of an area.
#[derive(Drop)]
struct Held {
    window: Window,
    which: Area,
}

impl fmt::Display for Held {
    fn fmt<W: fmt::Write>(&self, f: &mut fmt::Formatter<W>) -> fmt::Result {
        Bytes(window::area(&self.window.bytes, self.window.c, self.which)).fmt(f)
    }
}

fn bytes_of(which: Area) -> Result<Held, Refusal> {
    let window = Window::stored()?;
    Ok(Held { window, which })
}

// The pointers that stand in the words.
#[derive(Drop)]
pub struct FourPointers(pub Interface);

impl fmt::Display for FourPointers {
    fn fmt<W: fmt::Write>(&self, f: &mut fmt::Formatter<W>) -> fmt::Result {
        let Interface { b2h, h2b, .. } = self.0;
        write!(f, "B2H read {} write {}", b2h.read, b2h.write)?;
        write!(f, ", H2B read {} write {}", h2b.read, h2b.write)
    }
}

// What is read back of the words.
#[derive(Drop)]
struct ReadBack(Interface);

impl fmt::Display for ReadBack {
    fn fmt<W: fmt::Write>(&self, f: &mut fmt::Formatter<W>) -> fmt::Result {
        let seen = self.0;
        if seen.flags.state() == InterfaceState::NormalRuntime {
            f.write_str("normal runtime")?;
        } else {
            f.write_str("not in normal runtime")?;
        }
        // between two answers the words are one piece, so the comma stands with the first pointer's words
        write!(f, ", B2H read {} write {}", seen.b2h.read, seen.b2h.write)?;
        write!(f, ", H2B read {} write {}", seen.h2b.read, seen.h2b.write)?;
        if seen.host_ready {
            write!(f, ", host ready")?;
        }
        if seen.controller_ready {
            write!(f, ", controller ready")?;
        }
        Ok(())
    }
}

fn read_back() -> Result<ReadBack, Refusal> {
    let stored = Window::stored()?;
    Ok(ReadBack(window::interface_of(&stored.bytes, stored.c)))
}
