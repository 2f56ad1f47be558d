// The checks in their order, then the rules: what is to be done with a packet, before it changes anything. Old slots
// are freed behind the first two checks.
ghost use Rattle.std.specs.Prelude.{◌++◌, ◌≡◌, ◌≤◌, length};
ghost use Rattle.octets.specs.Checks.{first_failing};
ghost use Rattle.mctp.specs.Packet.{body_of};
ghost use Rattle.mctp.specs.Key.{header_of};
ghost use Rattle.decision.specs.Checks.{setup_order, packet_order, source_order};
ghost use Rattle.decision.specs.Rules.{planned, ruled};
ghost use Rattle.decision.specs.Decision.{OutcomeOf, aged_of, decided};

use crate::rules::{Plan, rule};
use mctp::Refusal;
use slots::{Receiver, Setup};

// The receiver without its old slots, and what is to be done with the packet there.
#[derive(Clone, Copy)]
pub struct Decided {
    pub plan: Plan,
    pub receiver: Receiver,
}

// What would be done with this packet at this millisecond count, in a memory of `size` bytes. Nothing is carried out:
// the receiver that it gives has its old slots freed and has not counted the packet as offered. Who keeps that receiver
// has a panel that counts too little; `receiver::give` is the call that counts.
pub fn decide(receiver: Receiver, size: usize, packet: &[u8], time: u32) -> Decided
    ensures receiver { result.receiver ≡ aged_of 64 time receiver size }
    ensures plan { planned result.plan ≡ decided 64 (aged_of 64 time receiver size) size packet.now }
{
    decide_within(mctp::LARGEST_BODY, receiver, size, packet, time)
}

// The decision with a largest body of `most`.
pub fn decide_within(
    most: usize,
    receiver: Receiver,
    size: usize,
    packet: &[u8],
    time: u32,
) -> Decided
    ensures receiver { result.receiver ≡ aged_of most time receiver size }
    ensures plan { planned result.plan
        ≡ decided most (aged_of most time receiver size) size packet.now }
{
    if let Err(refusal) = check_setup(most, receiver, size) {
        return Decided {
            plan: Plan::Refuse(refusal),
            receiver,
        };
    }
    let aged = slots::expired(receiver, time);
    Decided {
        plan: decide_packet(most, aged, packet),
        receiver: aged,
    }
}

// The packet's own checks, then the rules. The header is read again for the rules: handed on from the checks, it made a
// short arrival slower by a third.
fn decide_packet(most: usize, receiver: Receiver, packet: &[u8]) -> Plan
    requires { most ≤ 246 }
    ensures { planned result
        ≡ first_failing (packet_order most receiver.setup packet.now ++ source_order packet.now)
        (ruled receiver.slots (header_of packet.now) (length (body_of packet.now))) }
{
    match check_packet(most, receiver.setup, packet) {
        Err(refusal) => Plan::Refuse(refusal),
        Ok(()) => rule(receiver, mctp::header_of(packet), (packet.len() - 4) as u8),
    }
}

// 1 and 2.
fn check_setup(most: usize, receiver: Receiver, size: usize) -> Result<(), Refusal>
    ensures { OutcomeOf (setup_order most receiver size) result }
{
    if !slots::right_within(most, receiver) {
        return Err(Refusal::Setup);
    }
    if size != 4096 {
        return Err(Refusal::Room);
    }
    Ok(())
}

// 3, 15, 16 and 17.
#[tactic(auto, unfolding(mctp::specs::Key::header_of, mctp::specs::Key::key_of))]
fn check_packet(most: usize, setup: Setup, packet: &[u8]) -> Result<(), Refusal>
    ensures { OutcomeOf (packet_order most setup packet.now ++ source_order packet.now) result }
{
    if !mctp::size_right(most, packet.len()) {
        return Err(Refusal::Size);
    }
    let header = mctp::header_of(packet);
    if header.version != 1 {
        return Err(Refusal::Version);
    }
    if !slots::ours(setup, header.key.destination) {
        return Err(Refusal::NotOurs);
    }
    if !header.key.source.is_endpoint() {
        return Err(Refusal::Source);
    }
    Ok(())
}
