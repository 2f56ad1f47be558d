// Flags set and cleared, as a step of the reset handshake says (8.1.2 of 003), and the word that holds them.
ghost use Rattle.std.specs.Prelude.{◌≡◌};
ghost use Rattle.mmbi.specs.Changes.{up_after, reset_after, changed_flags, changed_word};

use crate::interface::Flags;
use crate::word::Word;

// What is done to the two flags of one end, UP and RST.
#[derive(Clone, Copy, PartialEq, Eq)]
pub enum Act {
    SetUp,
    ClearUp,
    SetReset,
    ClearReset,
    ClearBoth,
}

// Which end's flags are changed, and how. Both of an end's flags stand in one word, so a change is one store at most.
#[derive(Clone, Copy, PartialEq, Eq)]
pub enum Change {
    Nothing,
    Host(Act),
    Controller(Act),
}

impl Act {
    fn up_after(self, up: bool) -> bool
        ensures { result ≡ up_after self up }
    {
        match self {
            Act::SetUp => true,
            Act::ClearUp | Act::ClearBoth => false,
            Act::SetReset | Act::ClearReset => up,
        }
    }

    fn reset_after(self, reset: bool) -> bool
        ensures { result ≡ reset_after self reset }
    {
        match self {
            Act::SetUp | Act::ClearUp => reset,
            Act::SetReset => true,
            Act::ClearReset => false,
            Act::ClearBoth => false, // "clears the H_UP and H_RST flags"
        }
    }
}

impl Flags {
    // The four flags once this change is made.
    pub fn changed(self, change: Change) -> Flags
        ensures { result ≡ changed_flags change self }
    {
        match change {
            Change::Nothing => self,
            Change::Host(act) => Flags {
                host_up: act.up_after(self.host_up),
                host_reset: act.reset_after(self.host_reset),
                ..self
            },
            Change::Controller(act) => Flags {
                controller_up: act.up_after(self.controller_up),
                controller_reset: act.reset_after(self.controller_reset),
                ..self
            },
        }
    }
}

impl Word {
    // A word beside whose pointer an end's flags stand, once they are changed; the pointer is as it was.
    #[tactic(auto, unfolding(crate::specs::Changes::changed_word))]
    pub fn changed(self, act: Act) -> Word
        ensures { result ≡ changed_word act self }
    {
        Word {
            bit1: act.up_after(self.bit1),
            bit0: act.reset_after(self.bit0),
            ..self
        }
    }
}
