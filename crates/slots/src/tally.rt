// The tallies: told, worked out from the slots, and counted on.
ghost use Rattle.std.specs.Prelude.{◌≡◌, ◌≤◌};
ghost use Rattle.slots.specs.Tallies.{one_gathering, bytes_held, gathering_in, held_in, right_tallies};
ghost use Rattle.slots.specs.Tallies.{next_tally, moved, moved_tallies};
ghost use Rattle.slots.specs.Changes.{with_offered, with_done};

use crate::state::{Receiver, Slot, SlotState, Tallies};

// All four as they are stored, in any state: nothing is checked.
pub fn tallies_of(receiver: Receiver) -> Tallies
    ensures { result ≡ receiver.tallies }
{
    receiver.tallies
}

// One packet more was offered.
pub fn with_offered(receiver: Receiver) -> Receiver
    ensures { result ≡ with_offered receiver }
{
    let mut next = receiver;
    next.tallies.offered = next_tally(next.tallies.offered);
    next
}

// One message more is done.
pub fn with_done(receiver: Receiver) -> Receiver
    ensures { result ≡ with_done receiver }
{
    let mut next = receiver;
    next.tallies.done = next_tally(next.tallies.done);
    next
}

// Whether the first two are what these four slots say.
pub fn right_tallies(tallies: Tallies, slots: &[Slot; 4]) -> bool
    ensures { result ≡ right_tallies tallies (gathering_in slots.now) (held_in slots.now) }
{
    (tallies.gathering == all_gathering(slots)) & (tallies.held == all_held(slots))
}

// How many of these four gather.
pub fn all_gathering(slots: &[Slot; 4]) -> u32
    ensures { result ≡ gathering_in slots.now }
{
    slots.iter().map(|slot| one_gathering(*slot)).sum()
}

fn all_held(slots: &[Slot; 4]) -> u32
    ensures { result ≡ held_in slots.now }
{
    slots.iter().map(|slot| bytes_held(*slot)).sum()
}

// The tallies where a slot changes: less what it added before, and more what it adds now.
pub fn moved_tallies(tallies: Tallies, before: Slot, now: Slot) -> Tallies
    ensures { result ≡ moved_tallies tallies before.state now.state }
{
    Tallies {
        gathering: moved(tallies.gathering, one_gathering(before), one_gathering(now)),
        held: moved(tallies.held, bytes_held(before), bytes_held(now)),
        ..tallies
    }
}

fn moved(tally: u32, before: u32, now: u32) -> u32
    ensures { result ≡ moved tally before now }
{
    tally.saturating_sub(before).saturating_add(now)
}

fn next_tally(tally: u32) -> u32
    ensures { result ≡ next_tally tally }
{
    tally.saturating_add(1)
}

fn one_gathering(slot: Slot) -> u32
    ensures number { result ≡ one_gathering slot.state }
    ensures bound { result ≤ 1 }
{
    u32::from(!slot.is_free())
}

fn bytes_held(slot: Slot) -> u32
    ensures number { result ≡ bytes_held slot.state }
    ensures bound { result ≤ 65535 }
{
    match slot.state {
        SlotState::Free => 0,
        SlotState::Gathering { held, .. } => u32::from(held),
    }
}
