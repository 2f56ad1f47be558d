// Ends, phases, flags, states and changes in words.
use arrayvec::ArrayString;
use handshake::{ControllerPhase, HostPhase, Phase, Step};
use mmbi::{Act, Change, Flags, InterfaceState};
use std::fmt;
use std::fmt::Write as _;

// The phases of one end, by name.
pub trait Named: Phase {
    const END: &'static str;

    fn name(self) -> &'static str;
}

impl Named for HostPhase {
    const END: &'static str = "host";

    fn name(self) -> &'static str {
        match self {
            HostPhase::Running => "running",
            HostPhase::Asking => "asking",
            HostPhase::Waiting => "waiting",
        }
    }
}

impl Named for ControllerPhase {
    const END: &'static str = "controller";

    fn name(self) -> &'static str {
        match self {
            ControllerPhase::Running => "running",
            ControllerPhase::Asking => "asking",
            ControllerPhase::Asked => "asked",
            ControllerPhase::Down => "down",
            ControllerPhase::Cleared => "cleared",
            ControllerPhase::Initializing => "initializing",
        }
    }
}

// B_UP, B_RST, H_UP and H_RST, a digit each, in one piece.
#[derive(Clone, Copy)]
pub struct Digits(pub Flags);

impl fmt::Display for Digits {
    fn fmt<W: fmt::Write>(&self, f: &mut fmt::Formatter<W>) -> fmt::Result {
        let Digits(flags) = *self;
        let b_up = u8::from(flags.controller_up);
        let b_rst = u8::from(flags.controller_reset);
        let h_up = u8::from(flags.host_up);
        let h_rst = u8::from(flags.host_reset);
        let mut piece = ArrayString::<4>::new();
        write!(piece, "{b_up}{b_rst}{h_up}{h_rst}")?;
        f.write_str(piece.as_str())
    }
}

// A state as Table 5 of 003 names it.
pub fn state_name(state: InterfaceState) -> &'static str {
    match state {
        InterfaceState::InitializationInProgress => "Initialization in Progress",
        InterfaceState::InitializationCompleted => "Initialization Completed",
        InterfaceState::NormalRuntime => "Normal Runtime",
        InterfaceState::ResetRequestByController => "Reset Request by (B)MC",
        InterfaceState::ResetRequestByHost => "Reset Request by Host",
        InterfaceState::ResetAcked => "Reset ACKed",
        InterfaceState::TransitioningToInitialization => "Transitioning to Initialization",
        InterfaceState::TemporaryTransition => "Temporary Transition States",
        InterfaceState::InitializationMismatch => "Initialization Mismatch",
        InterfaceState::Unexpected => "Unexpected States",
    }
}

// What is done to which flags.
pub fn deed(change: Change) -> &'static str {
    match change {
        Change::Nothing => "waits",
        Change::Host(Act::SetUp) => "sets H_UP",
        Change::Host(Act::ClearUp) => "clears H_UP",
        Change::Host(Act::SetReset) => "sets H_RST",
        Change::Host(Act::ClearReset) => "clears H_RST",
        Change::Host(Act::ClearBoth) => "clears H_UP and H_RST",
        Change::Controller(Act::SetUp) => "sets B_UP",
        Change::Controller(Act::ClearUp) => "clears B_UP",
        Change::Controller(Act::SetReset) => "sets B_RST",
        Change::Controller(Act::ClearReset) => "clears B_RST",
        Change::Controller(Act::ClearBoth) => "clears B_UP and B_RST",
    }
}

// A step of an end: its phase, the flags that it sees, what it does, its next phase.
#[derive(Clone, Copy)]
pub struct TableLine {
    pub end: &'static str,
    phase: &'static str,
    sees: Flags,
    does: Change,
    next: &'static str,
}

impl TableLine {
    pub fn of<P: Named>(phase: P, sees: Flags, step: Step<P>) -> TableLine {
        TableLine {
            end: P::END,
            phase: phase.name(),
            sees,
            does: step.change,
            next: step.next.name(),
        }
    }
}

// The line from the phase on, with its end.
impl fmt::Display for TableLine {
    fn fmt<W: fmt::Write>(&self, f: &mut fmt::Formatter<W>) -> fmt::Result {
        let phase = self.phase;
        let sees = Digits(self.sees);
        let state = state_name(self.sees.state());
        let does = deed(self.does);
        let next = self.next;
        write!(f, "{phase} | {sees} | {state} | {does} | {next} |\n")
    }
}
