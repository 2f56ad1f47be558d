// A slot found: by its number, by its key, or the lowest that is free.
ghost use Rattle.std.specs.Prelude.{◌≡◌};
ghost use Rattle.slots.specs.Slots.{slot_at, slot_of, lowest_free, found_slot};

use crate::state::{Receiver, SlotState};
use mctp::Key;

// The state of a slot; past the last one there is nothing, and it reads as free.
pub fn state_at(receiver: Receiver, slot: usize) -> SlotState
    ensures { result ≡ slot_at receiver.slots slot }
{
    receiver
        .slots
        .get(slot)
        .map_or(SlotState::Free, |found| found.state)
}

// The slot that gathers for this key; what comes behind it isn't looked at.
pub fn slot_of(receiver: Receiver, key: Key) -> Option<u8>
    ensures { result ≡ found_slot (slot_of receiver.slots key) }
{
    receiver
        .slots
        .iter()
        .position(|slot| slot.has_key(key))
        .map(|slot| slot as u8)
}

// The lowest slot that is free, likewise.
pub fn lowest_free(receiver: Receiver) -> Option<u8>
    ensures { result ≡ found_slot (lowest_free receiver.slots 0 4) }
{
    receiver
        .slots
        .iter()
        .position(|slot| slot.is_free())
        .map(|slot| slot as u8)
}
