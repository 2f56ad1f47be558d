// The states of the MMBI interface, from its four flags.
use mmbi::{Flags, InterfaceState};
use std::fmt;
use told::Page;

pub fn tell(page: &mut Page) {
    page.section("MMBI flags B_UP, B_RST, H_UP, H_RST");
    for (words, flags) in [
        ("flags 0000: ", Flags::ALL_CLEAR),
        ("flags 1000: ", Flags::COMPLETED),
        ("flags 1010: ", Flags::NORMAL_RUNTIME),
        ("flags 1011: ", Flags::ASKED_BY_HOST),
        ("flags 1110: ", Flags::ASKED_BY_CONTROLLER),
        ("flags 1111: ", Flags::ACKNOWLEDGED),
    ] {
        page.line(words, State(flags.state()));
    }
}

// The five states that have a name of their own; the rest are transient.
#[derive(Drop)]
struct State(InterfaceState);

impl fmt::Display for State {
    fn fmt<W: fmt::Write>(&self, f: &mut fmt::Formatter<W>) -> fmt::Result {
        if self.0.is_transient() {
            return f.write_str("transient");
        }
        f.write_str(match self.0 {
            InterfaceState::InitializationCompleted => "initialization completed",
            InterfaceState::NormalRuntime => "normal runtime",
            InterfaceState::ResetRequestByHost => "reset asked by host",
            InterfaceState::ResetRequestByController => "reset asked by controller",
            InterfaceState::ResetAcked => "reset acknowledged",
            _ => unreachable!(),
        })
    }
}
