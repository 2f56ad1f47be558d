// What the receiver answers, in words.
use crate::packets::{Call, MEMORY, after};
use mctp::Refusal;
use receiver::Kept;
use std::fmt;
use told::{Answer, Good};

// What became of a packet's message.
#[derive(Drop)]
pub struct Progress(pub Kept);

impl fmt::Display for Progress {
    fn fmt<W: fmt::Write>(&self, f: &mut fmt::Formatter<W>) -> fmt::Result {
        let again = match self.0 {
            Kept::Held { slot, bytes, again } => {
                write!(f, "held slot {slot} bytes {bytes}")?;
                again
            }
            Kept::Done {
                slot,
                length,
                again,
            } => {
                write!(f, "done slot {slot} length {length}")?;
                again
            }
        };
        if again { write!(f, " again") } else { Ok(()) }
    }
}

// The answer to a packet.
pub fn answered(answer: Result<Kept, Refusal>) -> Answer<Progress> {
    Answer(answer.map(Progress))
}

// The answer to a packet after some calls.
pub fn answered_after(calls: &[Call], packet: &[u8]) -> Answer<Progress> {
    let mut memory = MEMORY;
    let before = after(calls, &mut memory);
    answered(receiver::give(before, &mut memory, packet, 0).answer)
}

// What a call that changes the receiver came to.
pub fn done(outcome: Result<(), Refusal>) -> Answer<Good> {
    Answer(outcome.map(|()| Good))
}
