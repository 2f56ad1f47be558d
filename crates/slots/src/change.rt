// The changes of a state: set-up, a slot freed, a slot set anew.
ghost use Rattle.std.specs.Prelude.{◌≡◌};
ghost use Rattle.mctp.specs.Refusals.{outcome_number};
ghost use Rattle.slots.specs.Changes.{fresh, with_slot, set_up_refusal, set_up_of, free_refusal, freed_of};

use crate::state::{Receiver, Setup, Slot, Tallies};
use crate::{check, tally};
use mctp::{Eid, Refusal};

// The outcome, and the receiver as the call leaves it.
#[derive(Clone, Copy)]
pub struct Changed {
    pub outcome: Result<(), Refusal>,
    pub receiver: Receiver,
}

// A fresh receiver with this own EID, whose slots are freed once they are older than `limit` milliseconds; refused, one
// with the null EID and the longest limit stands beside the refusal.
#[tactic(auto, unfolding(crate::specs::Changes::set_up_refusal, crate::specs::Changes::set_up_of))]
pub fn set_up(own: Eid, limit: u32) -> Changed
    ensures number { outcome_number result.outcome ≡ set_up_refusal (record { own = own; limit = limit }) }
    ensures receiver { result.receiver ≡ set_up_of (record { own = own; limit = limit }) }
{
    let setup = Setup { own, limit };
    if check::setup_right(setup) {
        return Changed {
            outcome: Ok(()),
            receiver: fresh_of(setup),
        };
    }
    Changed {
        outcome: Err(Refusal::Setup),
        receiver: fresh_of(Setup {
            own: Eid::NULL,
            limit: Setup::LONGEST_LIMIT,
        }),
    }
}

// "A separate call frees slot 0 to 3 (any other number: 1) and leaves the memory."
pub fn free(receiver: Receiver, slot: usize) -> Changed
    ensures number { outcome_number result.outcome ≡ free_refusal 64 receiver slot }
    ensures receiver { result.receiver ≡ freed_of 64 receiver slot }
{
    free_within(mctp::LARGEST_BODY, receiver, slot)
}

// The only write of a slot; the tallies move with it.
pub fn with_slot(receiver: Receiver, slot: usize, new: Slot) -> Receiver
    ensures { result ≡ with_slot receiver slot new }
{
    if slot < 4 {
        let mut next = receiver;
        next.tallies = tally::moved_tallies(receiver.tallies, receiver.slots[slot], new);
        next.slots[slot] = new;
        return next;
    }
    receiver
}

#[tactic(auto, unfolding(crate::specs::Changes::free_refusal, crate::specs::Changes::freed_of))]
fn free_within(most: usize, receiver: Receiver, slot: usize) -> Changed
    ensures number { outcome_number result.outcome ≡ free_refusal most receiver slot }
    ensures receiver { result.receiver ≡ freed_of most receiver slot }
{
    if check::right_within(most, receiver) && slot < 4 {
        return Changed {
            outcome: Ok(()),
            receiver: with_slot(receiver, slot, Slot::FREE),
        };
    }
    Changed {
        outcome: Err(Refusal::Setup),
        receiver,
    }
}

fn fresh_of(setup: Setup) -> Receiver
    ensures { result ≡ fresh setup }
{
    Receiver {
        setup,
        slots: [Slot::FREE; 4],
        tallies: Tallies::NONE,
    }
}
