// A packet given to the message rules: old slots freed, the packet decided on and counted, and the decision carried
// out. Only here is the memory touched.
ghost use Rattle.std.specs.Prelude.{◌≡◌};
ghost use Rattle.slots.specs.Changes.{with_slot};
ghost use Rattle.decision.specs.Rules.{planned};
ghost use Rattle.receiver.specs.Step.{says, answer_of, left, after_put, slot_in, carried_out, offers, after_offer};
ghost use Rattle.receiver.specs.Step.{step_of};

use decision::Plan;
use mctp::Refusal;
use slots::{Receiver, Slot, SlotState};

// What the message rules answer where they refuse nothing.
#[derive(Clone, Copy)]
pub enum Kept {
    Held {
        slot: u8,
        bytes: usize,
        again: bool,
    },
    Done {
        slot: u8,
        length: usize,
        again: bool,
    },
}

#[derive(Clone, Copy)]
pub struct Given {
    pub answer: Result<Kept, Refusal>,
    pub receiver: Receiver,
}

// One packet given at this millisecond count: the answer and the receiver, with the memory changed in one slot at most.
pub fn give(receiver: Receiver, memory: &mut [u8], packet: &[u8], time: u32) -> Given
    ensures { left result memory.new
        ≡ step_of 64 time receiver memory.old packet.now }
{
    give_within(mctp::LARGEST_BODY, receiver, memory, packet, time)
}

fn give_within(
    most: usize,
    receiver: Receiver,
    memory: &mut [u8],
    packet: &[u8],
    time: u32,
) -> Given
    ensures { left result memory.new
        ≡ step_of most time receiver memory.old packet.now }
{
    let decided = decision::decide_within(most, receiver, memory.len(), packet, time);
    let counted = offered(decided.receiver, decided.plan);
    carry_out(counted, memory, packet, decided.plan, time)
}

// The receiver with the packet counted, unless its state or the memory is refused.
fn offered(receiver: Receiver, plan: Plan) -> Receiver
    ensures { result ≡ after_offer receiver (planned plan) }
{
    if offers(plan) {
        return slots::with_offered(receiver);
    }
    receiver
}

fn offers(plan: Plan) -> bool
    ensures { result ≡ offers (planned plan) }
{
    !matches!(plan, Plan::Refuse(Refusal::Setup | Refusal::Room))
}

fn carry_out(receiver: Receiver, memory: &mut [u8], packet: &[u8], plan: Plan, time: u32) -> Given
    ensures { left result memory.new ≡ carried_out time receiver memory.old packet.now
        (planned plan) }
{
    match plan {
        Plan::Refuse(refusal) => Given {
            answer: Err(refusal),
            receiver,
        },
        Plan::Release { slot, refusal } => Given {
            answer: Err(refusal),
            receiver: slots::with_slot(receiver, usize::from(slot), Slot::FREE),
        },
        Plan::Put {
            slot,
            at,
            again,
            then,
        } => {
            let place = usize::from(slot);
            let before = usize::from(at);
            let body = octets::part(packet, 4, packet.len());
            octets::lay(memory, 1024 * place + before, body);
            Given {
                answer: Ok(answer_of(then, slot, before + body.len(), again)),
                receiver: finished(with_slot(receiver, slot, slot_in(then, time)), then),
            }
        }
    }
}

// The receiver with this slot, as `slots::with_slot` has it, by places that the compiler knows: it then leaves the
// other slots where they are. Called at a second place, it would no longer be inlined.
fn with_slot(receiver: Receiver, slot: u8, new: Slot) -> Receiver
    ensures { result ≡ with_slot receiver slot new }
{
    match slot {
        0 => slots::with_slot(receiver, 0, new),
        1 => slots::with_slot(receiver, 1, new),
        2 => slots::with_slot(receiver, 2, new),
        3 => slots::with_slot(receiver, 3, new),
        _ => slots::with_slot(receiver, usize::from(slot), new),
    }
}

// The slot as this packet leaves it.
fn slot_in(state: SlotState, time: u32) -> Slot
    ensures { result ≡ slot_in state time }
{
    match state {
        SlotState::Free => Slot::FREE,
        SlotState::Gathering { .. } => Slot { state, since: time },
    }
}

// The receiver with the message counted, where it is done.
fn finished(receiver: Receiver, then: SlotState) -> Receiver
    ensures { result ≡ after_put then receiver }
{
    match then {
        SlotState::Free => slots::with_done(receiver),
        SlotState::Gathering { .. } => receiver,
    }
}

fn answer_of(then: SlotState, slot: u8, bytes: usize, again: bool) -> Kept
    ensures { says (Ok result) ≡ answer_of then slot bytes again }
{
    match then {
        SlotState::Free => Kept::Done {
            slot,
            length: bytes,
            again,
        },
        SlotState::Gathering { .. } => Kept::Held { slot, bytes, again },
    }
}
