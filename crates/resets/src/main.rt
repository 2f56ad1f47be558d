// The reset handshake's page: its table of phases and its traces, asked of the proved calls.
#![tactic(auto)]

mod names;
mod output;
mod phases;
mod runs;

use handshake::{ControllerPhase, HostPhase};
use output::Output;
use runs::{Asker, End, Run};
use std::fmt;
use std::fmt::Write as _;

// The page up to the rows of its first table.
const FRONT: &str = "# The reset handshake

This page is what the program `resets` prints (`rt check resets && ./run resets`). Every row is asked of the proved
calls, and the gate compares the page with what the program prints.

Flags stand as Table 5 of 003 (DSP0282) has them: B_UP, B_RST, H_UP, H_RST. Host and controller each make a step when
they look at the flags. A step acts or waits, by the flags and the end's own phase.

## What each phase does

A row for each phase and flag state in which a step acts. No. is the number under which the phase is stored.

| End | No. | Phase | Sees | State by Table 5 | Does | Then |
|---|---|---|---|---|---|---|
";

// The page behind its last answer.
const FIRMWARE: &str = " steps.

## What firmware adds

- An end looks at the flags once a turn, and makes one step by what it saw.
- Before its step it drains the ring that it reads; the host not once it has set H_RST (003, Table 5, row 1011).
- It stores the change with `window::store_flags`. Where that answers 1, nothing is stored, and it keeps its old phase.
- The controller reinitializes the data structures in phase initializing, before it stores B_UP (003, 8.1.2.2, steps 6
  and 7). The host reads the descriptor anew at 1000 (Table 5), before it stores H_UP.
- After power-up, with all flags clear, the host starts in phase waiting and the controller in phase initializing.
- An end that restarts alone, with the interface as it was, takes its phase from the flags: the README has the table.
- A host whose controller started anew with all flags clear is put into phase waiting by its caller. Such a restart
  loses what was in the rings.

For the rest see [RULES.md](RULES.md#reset-handshake), [DECISIONS.md](DECISIONS.md) and [LOOSER.md](LOOSER.md).
";

fn main(rt: HostRuntime) {
    let _ = tell_page(&mut Output(rt));
}

// Between two answers the words are one piece, also where a heading stands among them.
fn tell_page(out: &mut Output) -> fmt::Result {
    out.write_str(FRONT)?;
    tell_phases(out)?;
    tell_counts(out)?;
    tell_runs(out)?;
    out.write_str(FIRMWARE)
}

fn tell_phases(out: &mut Output) -> fmt::Result {
    phases::show::<HostPhase>(out)?;
    phases::show::<ControllerPhase>(out)?;
    let host = phases::count::<HostPhase>();
    let controller = phases::count::<ControllerPhase>();
    let waits = host.waiting + controller.waiting;
    let all = host.all + controller.all;
    write!(
        out,
        "
In every other state the phase waits: it changes no flag and keeps its phase. That is so in {waits} of {all} pairs of a
phase and a flag state.

A number that is no phase is refused with 1: "
    )?;
    phases::show_refused::<HostPhase>(out)?;
    write!(out, " for the host, ")?;
    phases::show_refused::<ControllerPhase>(out)?;
    write!(
        out,
        " for the controller.

An ask takes the host"
    )?;
    phases::show_asks::<HostPhase>(out)?;
    write!(out, " and the controller")?;
    phases::show_asks::<ControllerPhase>(out)
}

// Up to the last row of the counts.
fn tell_counts(out: &mut Output) -> fmt::Result {
    let by_host = count(Asker::Host);
    let by_controller = count(Asker::Controller);
    let by_both = count(Asker::Both);
    write!(
        out,
        ". It changes no other phase.

## Steps until both ends run in normal runtime again

At 1010, with both ends in phase running, one end asks, or both do. Then they step in turn until the flags are 1010 and
both phases are running. Every step counts, one that waits too.

| | Host steps first | Controller steps first |
|---|---|---|
| Host asks | {} | {} |
| Controller asks | {} | {} |
| Both ask | {} | {}",
        by_host.0, by_host.1, by_controller.0, by_controller.1, by_both.0, by_both.1
    )
}

// Where the host steps first, and where the controller does.
fn count(asker: Asker) -> (usize, usize) {
    let host_first = Run::start(asker, End::Host).count();
    let controller_first = Run::start(asker, End::Controller).count();
    (host_first, controller_first)
}

// From behind the last count up to the last run's number of steps.
fn tell_runs(out: &mut Output) -> fmt::Result {
    write!(
        out,
        " |

## The host asks, and steps first

| Step | End | Phase | Sees | State by Table 5 | Does | Then |
|---|---|---|---|---|---|---|
"
    )?;
    let host_asks = Run::start(Asker::Host, End::Host);
    host_asks.show(out)?;
    write!(
        out,
        "
That took {} steps.

## The controller asks, and steps first

| Step | End | Phase | Sees | State by Table 5 | Does | Then |
|---|---|---|---|---|---|---|
",
        host_asks.count()
    )?;
    let controller_asks = Run::start(Asker::Controller, End::Controller);
    controller_asks.show(out)?;
    write!(
        out,
        "
That took {} steps.

## Both ask, and the host steps first

| Step | End | Phase | Sees | State by Table 5 | Does | Then |
|---|---|---|---|---|---|---|
",
        controller_asks.count()
    )?;
    let both_ask = Run::start(Asker::Both, End::Host);
    both_ask.show(out)?;
    write!(
        out,
        "
That took {}",
        both_ask.count()
    )
}
