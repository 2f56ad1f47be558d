// What an arrival call answers.
use mctp::Refusal;
use receiver::Kept;
use slots::Receiver;

// What the carrier knows beside the packet: the SMBus source address, the PCC notify flag, or the ring's new read
// pointer.
#[derive(Clone, Copy)]
pub enum Beside {
    Source(u8),
    Notify(bool),
    Next(usize),
}

// A packet was found, and this is what the message rules answer.
#[derive(Clone, Copy)]
pub struct Arrived {
    pub beside: Beside,
    pub answer: Result<Kept, Refusal>,
}

// Why there is no packet.
#[derive(Clone, Copy)]
pub enum NoPacket {
    // The ring holds nothing.
    Empty,
    // The ring's packet is not one for the message rules; the pointer after it.
    Skipped { refusal: Refusal, next: usize },
    // The carrier refused.
    Refused(Refusal),
}

impl From<Refusal> for NoPacket {
    ghost use Rattle.std.specs.Prelude.{◌≡◌};
    ghost use Rattle.rack.specs.declared.answer.NoPacket.TheVariants.{Refused};

    ghost from_gives = { λ refusal why. why ≡ Refused refusal };

    fn from(refusal: Refusal) -> NoPacket {
        NoPacket::Refused(refusal)
    }
}

// The answer, and the receiver as the call leaves it.
#[derive(Clone, Copy)]
pub struct Received {
    pub arrived: Result<Arrived, NoPacket>,
    pub receiver: Receiver,
}
