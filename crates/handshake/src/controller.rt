// The controller's end of the reset handshake (003, 8.1.2.2 and Table 5).
ghost use Rattle.handshake.specs.Phases.{controller_phases, controller_number, controller_asked};
ghost use Rattle.handshake.specs.Starts.{controller_at_power_up, controller_from_flags};
ghost use Rattle.handshake.specs.Steps.{controller_step};

use crate::phase::{Phase, Step};
use mctp::Refusal;
use mmbi::{Act, Change, Flags};

// Where the controller stands.
#[derive(Clone, Copy, PartialEq, Eq)]
pub enum ControllerPhase {
    // It asks for nothing.
    Running,
    // It is to ask for a reset, and hasn't set B_RST yet.
    Asking,
    // It has set B_RST, and waits for the host's H_RST.
    Asked,
    // It has cleared B_UP.
    Down,
    // It has cleared H_UP and H_RST.
    Cleared,
    // It has cleared B_RST, and reinitializes the data structures.
    Initializing,
}

impl Phase for ControllerPhase {
    ghost phases = { controller_phases };

    ghost number_of = { controller_number };

    ghost step_at = { controller_step };

    ghost asked = { controller_asked };

    ghost at_first = { controller_at_power_up };

    ghost by_flags = { controller_from_flags };

    #[tactic(auto, unfolding(crate::specs::Steps::controller_step))]
    fn step(self, flags: Flags) -> Step<ControllerPhase> {
        let (change, next) = match (self, flags) {
            (ControllerPhase::Running, Flags::ASKED_BY_HOST)
            | (ControllerPhase::Asking, Flags::NORMAL_RUNTIME | Flags::ASKED_BY_HOST) => {
                (Change::Controller(Act::SetReset), ControllerPhase::Asked)
            }
            (ControllerPhase::Asked, Flags::ACKNOWLEDGED) => {
                (Change::Controller(Act::ClearUp), ControllerPhase::Down)
            }
            (ControllerPhase::Down, Flags::TRANSITIONING) => {
                (Change::Host(Act::ClearBoth), ControllerPhase::Cleared)
            }
            (ControllerPhase::Cleared, Flags::HOST_CLEARED) => (
                Change::Controller(Act::ClearReset),
                ControllerPhase::Initializing,
            ),
            (ControllerPhase::Initializing, Flags::ALL_CLEAR) => {
                (Change::Controller(Act::SetUp), ControllerPhase::Running)
            }
            _ => (Change::Nothing, self),
        };
        Step { change, next }
    }

    fn ask(self) -> ControllerPhase {
        match self {
            ControllerPhase::Running => ControllerPhase::Asking,
            other => other,
        }
    }

    fn number(self) -> u8 {
        self as u8
    }

    fn of_number(n: u8) -> Result<ControllerPhase, Refusal> {
        match n {
            0 => Ok(ControllerPhase::Running),
            1 => Ok(ControllerPhase::Asking),
            2 => Ok(ControllerPhase::Asked),
            3 => Ok(ControllerPhase::Down),
            4 => Ok(ControllerPhase::Cleared),
            5 => Ok(ControllerPhase::Initializing),
            _ => Err(Refusal::Setup),
        }
    }

    fn at_power_up() -> ControllerPhase {
        ControllerPhase::Initializing
    }

    // It goes on where the flags tell that it was, and else asks anew.
    fn from_flags(flags: Flags) -> Option<ControllerPhase> {
        match flags {
            Flags::ASKED_BY_CONTROLLER | Flags::ACKNOWLEDGED => Some(ControllerPhase::Asked),
            Flags::TRANSITIONING => Some(ControllerPhase::Down),
            Flags::HOST_CLEARED => Some(ControllerPhase::Cleared),
            Flags::ALL_CLEAR => Some(ControllerPhase::Initializing),
            Flags::NORMAL_RUNTIME | Flags::ASKED_BY_HOST | Flags::COMPLETED => {
                Some(ControllerPhase::Asking)
            }
            _ => None,
        }
    }
}
