// What the bench program keeps from frame to frame, by value; the message memory is lent beside it.
ghost use Rattle.std.specs.Prelude.{◌≡◌};
ghost use Rattle.rack.specs.Answers.{tells};
ghost use Rattle.transcript.specs.State.{start, one_more, with_packet};

use mctp::Eid;
use rack::{Arrived, NoPacket};
use slots::{Receiver, Setup};

// "Own address 0x20, EID 9"
pub const ADDRESS: u8 = 0x20;

pub const OWN: Eid = Eid(9);

// "The bench program gives 0 as every time", so any limit will do.
pub const TIME: u32 = 0;

pub const LIMIT: u32 = Setup::LONGEST_LIMIT;

#[derive(Clone, Copy)]
pub struct State {
    pub receiver: Receiver,
    pub arrivals: u64,
    pub packets: u64,
}

#[tactic(auto, unfolding(slots::specs::Changes::set_up_of))]
pub fn set_up() -> State
    ensures { result ≡ start }
{
    State {
        receiver: slots::set_up(OWN, LIMIT).receiver,
        arrivals: 0,
        packets: 0,
    }
}

#[tactic(auto, unfolding(crate::specs::State::one_more))]
pub fn one_more(count: u64) -> u64
    ensures { result ≡ one_more count }
{
    count.saturating_add(1)
}

// One more where a packet was found.
pub fn with_packet(arrived: Result<Arrived, NoPacket>, count: u64) -> u64
    ensures { result ≡ with_packet (tells arrived) count }
{
    if arrived.is_ok() {
        one_more(count)
    } else {
        count
    }
}
