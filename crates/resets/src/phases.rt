// What each phase does: every number of a byte asked for its phase, and every phase about all sixteen flag states.
ghost use Rattle.std.specs.Prelude.{◌≤◌};

use crate::names::{Named, TableLine};
use crate::output::Output;
use handshake::Step;
use mctp::Refusal;
use mmbi::{Change, Flags};
use std::fmt;
use std::fmt::Write as _;

// The flag states, by the number whose binary digits they are.
const FLAG_STATES: u8 = 16;

// How many pairs of a phase and a flag state there are, and in how many of them the phase waits.
#[derive(Clone, Copy)]
pub struct Pairs {
    pub all: u32,
    pub waiting: u32,
}

// A line for each pair in which a phase of this end acts.
pub fn show<P: Named>(out: &mut Output) -> fmt::Result {
    for phase in (0..=u8::MAX).filter_map(|n| P::of_number(n).ok()) {
        show_phase(out, phase)?;
    }
    Ok(())
}

fn show_phase<P: Named>(out: &mut Output, phase: P) -> fmt::Result {
    for digits in 0..FLAG_STATES {
        let flags = flags_of(digits);
        let step = phase.step(flags);
        if step != waiting(phase) {
            let line = TableLine::of(phase, flags, step);
            write!(out, "| {} | {} | {line}", line.end, phase.number())?;
        }
    }
    Ok(())
}

pub fn count<P: Named>() -> Pairs
    ensures { (result.all ≤ 4096) × (result.waiting ≤ 4096) }
{
    let mut pairs = Pairs { all: 0, waiting: 0 };
    for n in 0..=u8::MAX {
        if let Ok(phase) = P::of_number(n) {
            for digits in 0..FLAG_STATES {
                pairs.all += 1;
                if phase.step(flags_of(digits)) == waiting(phase) {
                    pairs.waiting += 1;
                }
            }
        }
    }
    pairs
}

// The first number that is refused with 1, and the last.
pub fn show_refused<P: Named>(out: &mut Output) -> fmt::Result {
    let refused = |n: &u8| matches!(P::of_number(*n), Err(Refusal::Setup));
    let first = (0..=u8::MAX).find(refused);
    let last = (0..=u8::MAX).rfind(refused);
    if let (Some(first), Some(last)) = (first, last) {
        write!(out, "{first} to {last}")?;
    }
    Ok(())
}

// Each phase that an ask changes, and what it makes of it.
pub fn show_asks<P: Named>(out: &mut Output) -> fmt::Result {
    for phase in (0..=u8::MAX).filter_map(|n| P::of_number(n).ok()) {
        let asked = phase.ask();
        if asked != phase {
            write!(out, " from {} to {}", phase.name(), asked.name())?;
        }
    }
    Ok(())
}

// A step that changes no flag and keeps its phase.
fn waiting<P: Named>(phase: P) -> Step<P> {
    Step {
        change: Change::Nothing,
        next: phase,
    }
}

// The flags whose digits are the last four of a number's binary digits.
fn flags_of(digits: u8) -> Flags {
    Flags {
        controller_up: digits & 8 != 0,
        controller_reset: digits & 4 != 0,
        host_up: digits & 2 != 0,
        host_reset: digits & 1 != 0,
    }
}
