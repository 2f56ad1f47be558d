// The receiver by value: what it was set up with, its four slots, and its tallies.
ghost use Rattle.std.specs.Prelude.{◌≡◌};
ghost use Rattle.slots.specs.Slots.{is_free, has_key};

use mctp::{Eid, Key};

// The own EID, and the age in milliseconds over which a slot is freed.
#[derive(Clone, Copy)]
pub struct Setup {
    pub own: Eid,
    pub limit: u32,
}

impl Setup {
    pub const LONGEST_LIMIT: u32 = 60000;
}

// "A slot is free, or is gathering for a key with last sequence, unit and bytes held."
#[derive(Clone, Copy)]
pub enum SlotState {
    Free,
    Gathering {
        key: Key,
        sequence: u8,
        unit: u8,
        held: u16,
    },
}

// A slot, and the millisecond count of the last packet accepted for it; a slot that becomes free keeps 0.
#[derive(Clone, Copy)]
pub struct Slot {
    pub state: SlotState,
    pub since: u32,
}

impl Slot {
    pub const FREE: Slot = Slot {
        state: SlotState::Free,
        since: 0,
    };

    pub(crate) fn is_free(self) -> bool
        ensures { result ≡ is_free self.state }
    {
        matches!(self.state, SlotState::Free)
    }

    // Whether the slot gathers for this key.
    pub(crate) fn has_key(self, key: Key) -> bool
        ensures { result ≡ has_key key self.state }
    {
        match self.state {
            SlotState::Free => false,
            SlotState::Gathering { key: own, .. } => own == key,
        }
    }
}

// What the front panel shows: slots gathering, bytes held by them, packets offered to the message rules, messages done.
#[derive(Clone, Copy)]
pub struct Tallies {
    pub gathering: u32,
    pub held: u32,
    pub offered: u32,
    pub done: u32,
}

impl Tallies {
    pub const NONE: Tallies = Tallies {
        gathering: 0,
        held: 0,
        offered: 0,
        done: 0,
    };
}

#[derive(Clone, Copy)]
pub struct Receiver {
    pub setup: Setup,
    pub slots: [Slot; 4],
    pub tallies: Tallies,
}
