// What the rules make of a packet that no check refused: start, or not start. Nothing here sees the memory or the
// body's bytes.
ghost use Rattle.std.specs.Prelude.{◌≡◌};
ghost use Rattle.decision.specs.Rules.{planned, after, unit_right, on_start, gathered, on_follow, ruled};

use mctp::{Header, Refusal};
use slots::{Receiver, SlotState};

// What is to be done with a packet.
#[derive(Clone, Copy)]
pub enum Plan {
    Refuse(Refusal),
    // The slot becomes free.
    Release {
        slot: u8,
        refusal: Refusal,
    },
    // The body goes into the slot behind its first `at` bytes; `then` is the slot's state afterwards.
    Put {
        slot: u8,
        at: u16,
        again: bool,
        then: SlotState,
    },
}

#[tactic(auto, unfolding(crate::specs::Rules::ruled))]
pub fn rule(receiver: Receiver, header: Header, size: u8) -> Plan
    ensures { planned result ≡ ruled receiver.slots header size }
{
    if header.start {
        return on_start(receiver, header, size);
    }
    on_follow(receiver, header, size)
}

#[tactic(auto, unfolding(crate::specs::Rules::on_start))]
fn on_start(receiver: Receiver, header: Header, size: u8) -> Plan
    ensures { planned result ≡ on_start receiver.slots header size }
{
    let then = state_after(header, size, u16::from(size));
    if let Some(slot) = slots::slot_of(receiver, header.key) {
        return Plan::Put {
            slot,
            at: 0,
            again: true,
            then,
        };
    }
    if let Some(slot) = slots::lowest_free(receiver) {
        return Plan::Put {
            slot,
            at: 0,
            again: false,
            then,
        };
    }
    Plan::Refuse(Refusal::NoSlot)
}

#[tactic(auto, unfolding(crate::specs::Rules::on_follow))]
fn on_follow(receiver: Receiver, header: Header, size: u8) -> Plan
    ensures { planned result ≡ on_follow receiver.slots header size }
{
    if let Some(slot) = slots::slot_of(receiver, header.key)
        && let SlotState::Gathering {
            sequence,
            unit,
            held,
            ..
        } = slots::state_at(receiver, usize::from(slot))
    {
        return gather(slot, sequence, unit, held, header, size);
    }
    Plan::Refuse(Refusal::NoStart)
}

#[tactic(auto, unfolding(crate::specs::Rules::gathered))]
fn gather(slot: u8, sequence: u8, unit: u8, held: u16, header: Header, size: u8) -> Plan
    ensures { planned result ≡ gathered slot sequence unit held header size }
{
    if u32::from(header.sequence) != (u32::from(sequence) + 1) % 4 {
        return Plan::Release {
            slot,
            refusal: Refusal::Sequence,
        };
    }
    if !unit_right(header.end, unit, size) {
        return Plan::Release {
            slot,
            refusal: Refusal::Unit,
        };
    }
    let total = u32::from(held) + u32::from(size);
    if 1024 < total {
        return Plan::Release {
            slot,
            refusal: Refusal::TooLong,
        };
    }
    Plan::Put {
        slot,
        at: held,
        again: false,
        then: state_after(header, unit, total as u16),
    }
}

fn unit_right(end: bool, unit: u8, size: u8) -> bool
    ensures { result ≡ unit_right end unit size }
{
    if end { size <= unit } else { size == unit }
}

#[tactic(auto, unfolding(crate::specs::Rules::after))]
fn state_after(header: Header, unit: u8, held: u16) -> SlotState
    ensures { result ≡ after header unit held }
{
    if header.end {
        return SlotState::Free;
    }
    SlotState::Gathering {
        key: header.key,
        sequence: header.sequence,
        unit,
        held,
    }
}
