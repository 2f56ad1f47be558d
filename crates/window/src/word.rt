// The words of Host_RWS and Host_ROS in a window: read, and stored. Any configuration may be handed in here too.
ghost use Rattle.std.specs.Prelude.{◌≡◌, length, true};
ghost use Rattle.mctp.specs.Refusals.{outcome_number};
ghost use Rattle.window.specs.Places.{refusal_of};
ghost use Rattle.window.specs.Words.{word_place, has_up, cleared, word_where, interface_in, points_into};
ghost use Rattle.window.specs.Words.{store_refusal, with_word, stored, stored_pointer, with_flags, stored_flags};

use crate::place::check;
use descriptor::{Area, Configuration};
use mctp::Refusal;
use mmbi::{Act, Change, Flags, Pointers, Word};
use octets::HighFirst;

// The four pointers, by the words that hold them: H2B_WP and B2H_RP in Host_RWS, B2H_WP and H2B_RP in Host_ROS.
#[derive(Clone, Copy, PartialEq, Eq)]
pub enum Pointer {
    H2bWrite,
    B2hRead,
    B2hWrite,
    H2bRead,
}

impl Pointer {
    // Where its word lies.
    fn place(self, c: Configuration) -> usize
        ensures { result ≡ word_place c self }
    {
        match self {
            Pointer::H2bWrite => c.rws as usize,
            Pointer::B2hRead => c.rws as usize + 4,
            Pointer::B2hWrite => c.ros as usize,
            Pointer::H2bRead => c.ros as usize + 4,
        }
    }

    // The ring that it points into.
    fn ring(self) -> Area
        ensures { result ≡ points_into self }
    {
        match self {
            Pointer::H2bWrite | Pointer::H2bRead => Area::H2b,
            Pointer::B2hWrite | Pointer::B2hRead => Area::B2h,
        }
    }

    // Whether bit 1 of its word is an end's UP flag.
    fn has_up(self) -> bool
        ensures { result ≡ has_up self }
    {
        matches!(self, Pointer::H2bWrite | Pointer::B2hWrite)
    }

    // Bit 1 of a word that holds a read pointer is reserved: ignored in reading, 0 in writing.
    #[tactic(auto, unfolding(crate::specs::Words::cleared))]
    fn cleared(self, word: Word) -> Word
        ensures { result ≡ cleared self word }
    {
        Word {
            bit1: word.bit1 && self.has_up(),
            ..word
        }
    }
}

// Everything that the four words say.
#[derive(Clone, Copy, PartialEq, Eq)]
pub struct Interface {
    pub flags: Flags,
    pub b2h: Pointers,
    pub h2b: Pointers,
    pub host_ready: bool,
    pub controller_ready: bool,
}

impl Interface {
    // The pointers 0 and the flags clear.
    const CLEAR: Interface = Interface {
        flags: Flags::ALL_CLEAR,
        b2h: Pointers { read: 0, write: 0 },
        h2b: Pointers { read: 0, write: 0 },
        host_ready: false,
        controller_ready: false,
    };
}

// All pointers and flags; the pointers 0 and the flags clear where refused.
#[tactic(auto, using(crate::proofs::Interfaces::interface_refused), unfolding(crate::specs::Words::interface_in))]
pub fn interface_of(window: &[u8], c: Configuration) -> Interface
    ensures { result ≡ interface_in window.now c }
{
    if !c.is_allowed(window.len()) {
        return Interface::CLEAR;
    }
    let host = held(window, c, Pointer::H2bWrite);
    let host_second = held(window, c, Pointer::B2hRead);
    let controller = held(window, c, Pointer::B2hWrite);
    let controller_second = held(window, c, Pointer::H2bRead);
    Interface {
        flags: Flags {
            controller_up: controller.bit1,
            controller_reset: controller.bit0,
            host_up: host.bit1,
            host_reset: host.bit0,
        },
        b2h: Pointers {
            read: host_second.pointer,
            write: controller.pointer,
        },
        h2b: Pointers {
            read: controller_second.pointer,
            write: host.pointer,
        },
        host_ready: host_second.bit0,
        controller_ready: controller_second.bit0,
    }
}

// The word, pointer and flags, stored where this pointer is held; where refused nothing is stored.
#[tactic(auto, using(crate::proofs::Stores::stored_either_way))]
pub fn store(window: &mut [u8], c: Configuration, which: Pointer, word: Word) -> Result<(), Refusal>
    ensures number { outcome_number result ≡ store_refusal (length window.old) c which word.pointer }
    ensures window { window.new ≡ stored window.old c which word }
{
    check_pointer(window, c, which, word.pointer)?;
    lay_word(window, c, which, word);
    Ok(())
}

// The pointer alone, with the flags that stand beside it; where refused nothing is stored. The flags may be read before
// that is asked: where the configuration is refused they go nowhere.
#[tactic(auto, using(crate::proofs::Stores::pointer_stored))]
pub fn store_pointer(
    window: &mut [u8],
    c: Configuration,
    which: Pointer,
    pointer: usize,
) -> Result<(), Refusal>
    ensures number { outcome_number result ≡ store_refusal (length window.old) c which pointer }
    ensures window { window.new ≡ stored_pointer window.old c which pointer }
{
    let beside = held(window, c, which);
    store(window, c, which, Word { pointer, ..beside })
}

// The flags that a step of the reset handshake changes, beside the pointer that stands there, whatever it is: so a
// reset can cure a broken pointer. Where the configuration is refused nothing is stored.
#[tactic(auto, unfolding(crate::specs::Places::refusal_of, crate::specs::Words::stored_flags))]
pub fn store_flags(window: &mut [u8], c: Configuration, change: Change) -> Result<(), Refusal>
    ensures number { outcome_number result ≡ refusal_of (length window.old) c }
    ensures window { window.new ≡ stored_flags window.old c change }
{
    check(window, c)?;
    match change {
        Change::Nothing => {}
        Change::Host(act) => lay_flags(window, c, Pointer::H2bWrite, act),
        Change::Controller(act) => lay_flags(window, c, Pointer::B2hWrite, act),
    }
    Ok(())
}

// An end's flags, changed in the word that holds this pointer. No other word is written, so that the host writes no
// byte of Host_ROS, which it may only read.
fn lay_flags(window: &mut [u8], c: Configuration, which: Pointer, act: Act)
    ensures { window.new ≡ with_flags window.old c which act }
{
    let word = held(window, c, which);
    lay_word(window, c, which, word.changed(act));
}

// Whether this pointer may be stored: else 1 or 12.
#[tactic(auto, unfolding(crate::specs::Places::refusal_of, crate::specs::Words::store_refusal))]
fn check_pointer(
    window: &[u8],
    c: Configuration,
    which: Pointer,
    pointer: usize,
) -> Result<(), Refusal>
    ensures { outcome_number result ≡ store_refusal (length window.now) c which pointer }
{
    check(window, c)?;
    let ring = c.area_place(which.ring());
    if !mmbi::pointer_right(ring.length as usize, pointer) {
        return Err(Refusal::Pointer);
    }
    Ok(())
}

// The word's four bytes, laid where this pointer is held.
fn lay_word(window: &mut [u8], c: Configuration, which: Pointer, word: Word)
    ensures { window.new ≡ with_word window.old c which word }
{
    octets::lay_word::<HighFirst>(window, which.place(c), u32::from(which.cleared(word)));
}

// The word that holds this pointer.
#[tactic(auto, unfolding(crate::specs::Words::word_where))]
fn held(window: &[u8], c: Configuration, which: Pointer) -> Word
    ensures { result ≡ word_where true window.now c which }
{
    which.cleared(Word::from(octets::word_at::<HighFirst>(window, which.place(c))))
}
