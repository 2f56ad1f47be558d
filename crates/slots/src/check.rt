// The state check: comparisons, and one remainder for each gathering slot; where none gathers, or one, it leaves early.
// Every arrival takes it, so here and in the slots' other tests `&` joins what is cheap to ask: `&&` would put a branch
// between, which takes instructions (4 in `too_old`).
ghost use Rattle.std.specs.Prelude.{◌≡◌, ◌&&◌};
ghost use Rattle.slots.specs.Setup.{right_setup, ours_of};
ghost use Rattle.slots.specs.State.{multiple, right_numbers, right_slot, clash, each_right, all_apart, right_state};

use crate::state::{Receiver, Setup, Slot, SlotState};
use crate::tally;
use mctp::{Eid, Key};

// Whether the stored state is one that 1 lets through.
pub fn right(receiver: Receiver) -> bool
    ensures { result ≡ right_state 64 receiver }
{
    right_within(mctp::LARGEST_BODY, receiver)
}

// The check with a largest body of `most`.
pub fn right_within(most: usize, receiver: Receiver) -> bool
    ensures { result ≡ right_state most receiver }
{
    mctp::body_right(most)
        & setup_right(receiver.setup)
        & slots_right(most, receiver.setup, &receiver.slots)
        & tally::right_tallies(receiver.tallies, &receiver.slots)
}

// Whether a receiver may be set up with this.
pub fn setup_right(setup: Setup) -> bool
    ensures { result ≡ right_setup setup }
{
    setup.own.is_endpoint() & (1..=Setup::LONGEST_LIMIT).contains(&setup.limit)
}

// Whether 16 lets this destination through.
pub fn ours(setup: Setup, destination: Eid) -> bool
    ensures { result ≡ ours_of setup destination.0 }
{
    (destination == setup.own) | destination.is_null() | destination.is_broadcast()
}

// Each slot right by itself, and no two with one key. Where none gathers there is nothing to ask, where one does no
// pair.
fn slots_right(most: usize, setup: Setup, slots: &[Slot; 4]) -> bool
    ensures { result ≡ each_right most setup slots.now && all_apart slots.now }
{
    let gathering = tally::all_gathering(slots);
    if gathering == 0 {
        return true;
    }
    let right = each_right(most, setup, slots);
    if gathering == 1 {
        return right;
    }
    right & all_apart(slots)
}

fn each_right(most: usize, setup: Setup, slots: &[Slot; 4]) -> bool
    ensures { result ≡ each_right most setup slots.now }
{
    slots.iter().all(|slot| right_slot(most, setup, *slot))
}

#[tactic(auto, unfolding(crate::specs::State::right_slot))]
fn right_slot(most: usize, setup: Setup, slot: Slot) -> bool
    ensures { result ≡ right_slot most setup slot.state }
{
    match slot.state {
        SlotState::Free => true,
        SlotState::Gathering {
            key,
            sequence,
            unit,
            held,
        } => {
            right_numbers(most, sequence, unit, held)
                & (key.tag <= 7)
                & ours(setup, key.destination)
        }
    }
}

#[tactic(auto, unfolding(crate::specs::State::right_numbers))]
fn right_numbers(most: usize, sequence: u8, unit: u8, held: u16) -> bool
    ensures { result ≡ right_numbers most sequence unit held }
{
    (usize::from(unit) <= most)
        & is_multiple(unit, held)
        & (1..=1024).contains(&held)
        & (sequence <= 3)
}

#[tactic(auto, unfolding(crate::specs::State::multiple))]
fn is_multiple(unit: u8, held: u16) -> bool
    ensures { result ≡ multiple unit held }
{
    (1 <= unit) & held.is_multiple_of(u16::from(unit))
}

// Four slots, six pairs.
fn all_apart(slots: &[Slot; 4]) -> bool
    ensures { result ≡ all_apart slots.now }
{
    let [a, b, c, d] = *slots;
    !clashes(a, b)
        & !clashes(a, c)
        & !clashes(a, d)
        & !clashes(b, c)
        & !clashes(b, d)
        & !clashes(c, d)
}

#[tactic(auto, unfolding(crate::specs::State::clash))]
fn clashes(a: Slot, b: Slot) -> bool
    ensures { result ≡ clash a.state b.state }
{
    matches!(a.state, SlotState::Gathering { key, .. } if b.has_key(key))
}
