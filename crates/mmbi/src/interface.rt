// The state of the interface, from the four flags of both ends (Table 5 of 003).
ghost use Rattle.std.specs.Prelude.{◌≡◌};
ghost use Rattle.mmbi.specs.Interface.{state_of, is_transient, may_read, may_write};

// B_UP, B_RST, H_UP and H_RST.
#[derive(Clone, Copy, PartialEq, Eq)]
pub struct Flags {
    pub controller_up: bool,
    pub controller_reset: bool,
    pub host_up: bool,
    pub host_reset: bool,
}

// The flag states that the reset handshake goes through: 0000, 0100, 0111, 1000, 1010, 1011, 1110 and 1111.
impl Flags {
    pub const ALL_CLEAR: Flags = Flags {
        controller_up: false,
        controller_reset: false,
        host_up: false,
        host_reset: false,
    };

    pub const HOST_CLEARED: Flags = Flags {
        controller_up: false,
        controller_reset: true,
        host_up: false,
        host_reset: false,
    };

    pub const TRANSITIONING: Flags = Flags {
        controller_up: false,
        controller_reset: true,
        host_up: true,
        host_reset: true,
    };

    pub const COMPLETED: Flags = Flags {
        controller_up: true,
        controller_reset: false,
        host_up: false,
        host_reset: false,
    };

    pub const NORMAL_RUNTIME: Flags = Flags {
        controller_up: true,
        controller_reset: false,
        host_up: true,
        host_reset: false,
    };

    pub const ASKED_BY_HOST: Flags = Flags {
        controller_up: true,
        controller_reset: false,
        host_up: true,
        host_reset: true,
    };

    pub const ASKED_BY_CONTROLLER: Flags = Flags {
        controller_up: true,
        controller_reset: true,
        host_up: true,
        host_reset: false,
    };

    pub const ACKNOWLEDGED: Flags = Flags {
        controller_up: true,
        controller_reset: true,
        host_up: true,
        host_reset: true,
    };

    // All sixteen rows of Table 5, in its order.
    #[tactic(auto, unfolding(crate::specs::Interface::state_of))]
    pub fn state(self) -> InterfaceState
        ensures { result ≡ state_of self }
    {
        match (
            self.controller_up,
            self.controller_reset,
            self.host_up,
            self.host_reset,
        ) {
            (false, false, false, false) => InterfaceState::InitializationInProgress,
            (true, false, false, false) => InterfaceState::InitializationCompleted,
            (true, false, true, false) => InterfaceState::NormalRuntime,
            (true, true, true, false) => InterfaceState::ResetRequestByController,
            (true, false, true, true) => InterfaceState::ResetRequestByHost,
            (true, true, true, true) => InterfaceState::ResetAcked,
            (false, true, true, true) => InterfaceState::TransitioningToInitialization,
            (false, true, true, false) | (false, true, false, _) | (false, false, false, true) =>
                InterfaceState::TemporaryTransition,
            (true, false, false, true) => InterfaceState::InitializationMismatch,
            (true, true, false, _) | (false, false, true, _) => InterfaceState::Unexpected,
        }
    }
}

// The names of Table 5.
#[derive(Clone, Copy, PartialEq, Eq)]
pub enum InterfaceState {
    InitializationInProgress,
    InitializationCompleted,
    NormalRuntime,
    ResetRequestByController,
    ResetRequestByHost,
    ResetAcked,
    TransitioningToInitialization,
    TemporaryTransition,
    InitializationMismatch,
    Unexpected,
}

impl InterfaceState {
    // What document 01 calls transient: every state that it gives no name of its own.
    pub fn is_transient(self) -> bool
        ensures { result ≡ is_transient self }
    {
        matches!(
            self,
            InterfaceState::InitializationInProgress
                | InterfaceState::TransitioningToInitialization
                | InterfaceState::TemporaryTransition
                | InterfaceState::InitializationMismatch
                | InterfaceState::Unexpected
        )
    }

    // Whether a ring may be read: in normal runtime, and while one end alone asks for a reset, so that what was queued
    // isn't dropped. A reset that is acknowledged is no longer a "reset-asked" state.
    pub fn may_read(self) -> bool
        ensures { result ≡ may_read self }
    {
        matches!(
            self,
            InterfaceState::NormalRuntime
                | InterfaceState::ResetRequestByController
                | InterfaceState::ResetRequestByHost
        )
    }

    // Whether a ring may be written: in normal runtime alone. Once the host asks, "Host not allowed to write to any
    // MMBI structures".
    pub fn may_write(self) -> bool
        ensures { result ≡ may_write self }
    {
        self == InterfaceState::NormalRuntime
    }
}
