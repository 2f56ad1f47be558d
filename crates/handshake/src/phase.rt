// What both ends of the reset handshake have alike: a phase that makes a step by the four flags, that is stored under a
// number, and that a start gives.
ghost use Rattle.std.specs.Prelude.{◌≡◌, ℕ, Option};
ghost use Rattle.mmbi.specs.declared.interface.Flags.{Flags};
ghost use Rattle.handshake.specs.declared.phase.Step.{Step};
ghost use Rattle.mctp.specs.Refusals.{outcome_number};
ghost use Rattle.handshake.specs.Phases.{stored_in, stored_refusal, stored_number};

use mctp::Refusal;
use mmbi::{Change, Flags};

// What a step says: which flags to change, and the phase once they are changed.
#[derive(Clone, Copy, PartialEq, Eq)]
pub struct Step<P> {
    pub change: Change,
    pub next: P,
}

// Where an end stands.
pub trait Phase: Copy + Eq {
    // How many there are, and the number of each.
    ghost phases: { ℕ };

    ghost number_of: { Self → ℕ };

    ghost step_at: { Self → Flags → Step Self };

    ghost asked: { Self → Self };

    ghost at_first: { Self };

    ghost by_flags: { Flags → Option Self };

    // Acts where the flags are in order for this phase; else it waits.
    fn step(self, flags: Flags) -> Step<Self>
        ensures { result ≡ step_at self flags };

    // An ask is taken in phase running alone: one that came on top of a reset would never be answered.
    fn ask(self) -> Self
        ensures { result ≡ asked self };

    // The number under which a phase is stored.
    fn number(self) -> u8
        ensures { result ≡ number_of self };

    // The phase that is stored under a number: refused with 1 where it is none.
    fn of_number(n: u8) -> Result<Self, Refusal>
        ensures number { outcome_number result ≡ stored_refusal phases n }
        ensures phase { stored_in number_of result ≡ stored_number phases n };

    // The phase to start in after power-up. Zeroed storage is another one, running, in which nothing comes up.
    fn at_power_up() -> Self
        ensures { result ≡ at_first };

    // The phase to start in where this end restarted alone, with the interface as it was: none where the flags are such
    // as no graceful reset passes.
    fn from_flags(flags: Flags) -> Option<Self>
        ensures { result ≡ by_flags flags };
}
