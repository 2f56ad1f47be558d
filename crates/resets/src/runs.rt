// Both ends stepping in turn, from an ask until both run in normal runtime again.
ghost use Rattle.std.specs.Iterator.{at_most};

use crate::names::{Named, TableLine};
use crate::output::Output;
use handshake::{ControllerPhase, HostPhase, Phase};
use mmbi::Flags;
use std::fmt;
use std::fmt::Write as _;

// More steps than any run takes.
const LIMIT: u8 = 20;

#[derive(Clone, Copy)]
pub enum End {
    Host,
    Controller,
}

#[derive(Clone, Copy)]
pub enum Asker {
    Host,
    Controller,
    Both,
}

// The flags, where both ends stand, whose step is next, and how many more steps are looked at.
#[derive(Clone, Copy)]
pub struct Run {
    flags: Flags,
    host: HostPhase,
    controller: ControllerPhase,
    next: End,
    left: u8,
}

impl Run {
    // In normal runtime, where an end asks, or both do.
    pub fn start(asker: Asker, first: End) -> Run {
        let host = HostPhase::Running;
        let controller = ControllerPhase::Running;
        let (host, controller) = match asker {
            Asker::Host => (host.ask(), controller),
            Asker::Controller => (host, controller.ask()),
            Asker::Both => (host.ask(), controller.ask()),
        };
        Run {
            flags: Flags::NORMAL_RUNTIME,
            host,
            controller,
            next: first,
            left: LIMIT,
        }
    }

    // A line for each step.
    pub fn show(self, out: &mut Output) -> fmt::Result {
        for (n, line) in (1u8..).zip(self) {
            write!(out, "| {n} | {} | {line}", line.end)?;
        }
        Ok(())
    }

    // Whether the flags are 1010 and both phases running.
    fn is_back(&self) -> bool {
        self.flags == Flags::NORMAL_RUNTIME
            && self.host == HostPhase::Running
            && self.controller == ControllerPhase::Running
    }
}

// The steps that it takes until the flags are 1010 and both phases running.
impl Iterator for Run {
    type Item = TableLine;

    ghost remaining = { λ run. at_most run.left };

    fn next(&mut self) -> Option<TableLine> {
        if self.is_back() {
            return None;
        }
        self.left = self.left.checked_sub(1)?;
        let line = match self.next {
            End::Host => {
                self.next = End::Controller;
                make_step(&mut self.host, &mut self.flags)
            }
            End::Controller => {
                self.next = End::Host;
                make_step(&mut self.controller, &mut self.flags)
            }
        };
        Some(line)
    }
}

fn make_step<P: Named>(phase: &mut P, flags: &mut Flags) -> TableLine {
    let step = phase.step(*flags);
    let line = TableLine::of(*phase, *flags, step);
    *phase = step.next;
    *flags = flags.changed(step.change);
    line
}
