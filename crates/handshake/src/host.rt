// The host's end of the reset handshake (003, 8.1.2.1 and Table 5).
ghost use Rattle.handshake.specs.Phases.{host_phases, host_number, host_asked};
ghost use Rattle.handshake.specs.Starts.{host_at_power_up, host_from_flags};
ghost use Rattle.handshake.specs.Steps.{host_step};

use crate::phase::{Phase, Step};
use mctp::Refusal;
use mmbi::{Act, Change, Flags};

// Where the host stands.
#[derive(Clone, Copy, PartialEq, Eq)]
pub enum HostPhase {
    // It asks for nothing.
    Running,
    // It is to ask for a reset, and hasn't set H_RST yet.
    Asking,
    // It has set H_RST, and waits for the controller to complete the initialization.
    Waiting,
}

impl Phase for HostPhase {
    ghost phases = { host_phases };

    ghost number_of = { host_number };

    ghost step_at = { host_step };

    ghost asked = { host_asked };

    ghost at_first = { host_at_power_up };

    ghost by_flags = { host_from_flags };

    #[tactic(auto, unfolding(crate::specs::Steps::host_step))]
    fn step(self, flags: Flags) -> Step<HostPhase> {
        let (change, next) = match (self, flags) {
            (HostPhase::Running, Flags::ASKED_BY_CONTROLLER)
            | (HostPhase::Asking, Flags::NORMAL_RUNTIME | Flags::ASKED_BY_CONTROLLER) => {
                (Change::Host(Act::SetReset), HostPhase::Waiting)
            }
            (HostPhase::Waiting, Flags::COMPLETED) => {
                (Change::Host(Act::SetUp), HostPhase::Running)
            }
            _ => (Change::Nothing, self),
        };
        Step { change, next }
    }

    fn ask(self) -> HostPhase {
        match self {
            HostPhase::Running => HostPhase::Asking,
            other => other,
        }
    }

    fn number(self) -> u8 {
        self as u8
    }

    fn of_number(n: u8) -> Result<HostPhase, Refusal> {
        match n {
            0 => Ok(HostPhase::Running),
            1 => Ok(HostPhase::Asking),
            2 => Ok(HostPhase::Waiting),
            _ => Err(Refusal::Setup),
        }
    }

    fn at_power_up() -> HostPhase {
        HostPhase::Waiting
    }

    // It asks anew while it is up and hasn't set H_RST, and else waits.
    fn from_flags(flags: Flags) -> Option<HostPhase> {
        match flags {
            Flags::NORMAL_RUNTIME | Flags::ASKED_BY_CONTROLLER => Some(HostPhase::Asking),
            Flags::ASKED_BY_HOST
            | Flags::ACKNOWLEDGED
            | Flags::TRANSITIONING
            | Flags::HOST_CLEARED
            | Flags::ALL_CLEAR
            | Flags::COMPLETED => Some(HostPhase::Waiting),
            _ => None,
        }
    }
}
