// Messages cut into packets. One of 130 bytes from EID 10 to EID 9, with tag owner, tag 5 and first sequence 3, has
// document 01's bodies of 64, 64 and 2 with flags BD, 0D and 5D.
use crate::headers::Fields;
use crate::packets::{MEMORY, Memory, fresh};
use crate::paths::Delivery;
use mctp::{Eid, Key, Refusal};
use sender::{Heading, Message};
use slots::Receiver;
use std::fmt;
use told::{Answer, Page};

const MESSAGE: [u8; 130] = [0; 130];

const TOO_LONG: [u8; 1025] = [0; 1025];

pub fn tell(page: &mut Page) {
    page.section("Messages sent from EID 10 to EID 9, tag owner, tag 5, first sequence 3");
    for (words, message) in [
        ("message of 0 bytes: ", &TOO_LONG[..0]),
        ("message of 1 byte: ", &TOO_LONG[..1]),
        ("message of 64 bytes: ", &TOO_LONG[..64]),
        ("message of 65 bytes: ", &TOO_LONG[..65]),
        ("message of 1024 bytes: ", &TOO_LONG[..1024]),
        ("message of 1025 bytes: ", &TOO_LONG),
        ("message of 130 bytes: ", &MESSAGE),
    ] {
        page.line(words, Answer(count(message)));
    }
    for (words, room, destination, k) in [
        ("its packet 0: ", 68, 9, 0),
        ("its packet 1: ", 68, 9, 1),
        ("its packet 2: ", 68, 9, 2),
        ("its packet 3: ", 68, 9, 3),
        ("its packet 0 in an output of 67 bytes: ", 67, 9, 0),
        ("its packet 0 to EID 7 instead: ", 68, 7, 0),
    ] {
        page.line(words, Answer(cut(room, destination, k)));
    }
    page.line(
        "its frames, one by one to a fresh receiver at EID 9: ",
        sent(),
    );
}

// How many packets a message has.
#[derive(Drop)]
struct Packets(usize);

impl fmt::Display for Packets {
    fn fmt<W: fmt::Write>(&self, f: &mut fmt::Formatter<W>) -> fmt::Result {
        write!(f, "packets {}", self.0)
    }
}

fn count(message: &[u8]) -> Result<Packets, Refusal> {
    sender::count(message).map(Packets)
}

// The 130 bytes to this EID.
fn message(destination: u8) -> Message<'static> {
    let key = Key {
        destination: Eid(destination),
        source: Eid(10),
        owner: true,
        tag: 5,
    };
    Message {
        bytes: &MESSAGE,
        heading: Heading { key, first: 3 },
    }
}

// A packet of a message: its size, the size of its body, and its header.
#[derive(Drop)]
struct CutPacket {
    size: usize,
    body: usize,
    fields: Fields,
}

impl fmt::Display for CutPacket {
    fn fmt<W: fmt::Write>(&self, f: &mut fmt::Formatter<W>) -> fmt::Result {
        write!(
            f,
            "good, {} bytes, body of {}, {}",
            self.size, self.body, self.fields
        )
    }
}

// Packet k of the 130 bytes, in an output of at most 68 bytes.
fn cut(room: usize, destination: u8, k: usize) -> Result<CutPacket, Refusal> {
    let mut output = [0; 68];
    let out = &mut output[..room.min(68)];
    let size = sender::to_output(out, message(destination), k)?;
    Ok(CutPacket {
        size,
        body: size.saturating_sub(4),
        fields: Fields(mctp::header_of(&out[..size.min(out.len())])),
    })
}

// The frames of packets 0 to 2, given one after another to a fresh receiver.
fn sent() -> Frames {
    let mut memory = MEMORY;
    let (first, receiver) = send(fresh(), &mut memory, 0);
    let (second, receiver) = send(receiver, &mut memory, 1);
    let (third, _) = send(receiver, &mut memory, 2);
    Frames([first, second, third])
}

// What became of the frames, each in turn.
#[derive(Drop)]
struct Frames([Answer<Delivery>; 3]);

impl fmt::Display for Frames {
    fn fmt<W: fmt::Write>(&self, f: &mut fmt::Formatter<W>) -> fmt::Result {
        let [first, second, third] = &self.0;
        write!(f, "{first}, {second}, {third}")
    }
}

// Packet k sent from address 17 to address 32, and received there.
fn send(before: Receiver, memory: &mut Memory, k: usize) -> (Answer<Delivery>, Receiver) {
    let mut frame = [0; 73];
    match sender::to_smbus(&mut frame, message(9), k, 32, 17) {
        Ok(size) => {
            let received = rack::from_smbus(&frame[..size.min(73)], 32, before, memory, 0);
            (Answer(Ok(Delivery::from(received))), received.receiver)
        }
        Err(why) => (Answer(Err(why)), before),
    }
}
