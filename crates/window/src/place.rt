// Where the rings and the structures lie in a window. A configuration is stored state, so any may be handed in with
// any window.
ghost use Rattle.std.specs.Prelude.{◌≡◌, length};
ghost use Rattle.mctp.specs.Refusals.{outcome_number};
ghost use Rattle.window.specs.Places.{refusal_of, place_in, area_of};

use descriptor::{Area, Configuration, Place};
use mctp::Refusal;

// Refused with 1 where the configuration is not one that this window can have.
#[tactic(auto, unfolding(crate::specs::Places::refusal_of))]
pub fn check(window: &[u8], c: Configuration) -> Result<(), Refusal>
    ensures { outcome_number result ≡ refusal_of (length window.now) c }
{
    if !c.is_allowed(window.len()) {
        return Err(Refusal::Setup);
    }
    Ok(())
}

// Where this area lies; at 0 with no bytes where refused.
#[tactic(auto, unfolding(crate::specs::Places::place_in))]
pub fn place_of(window: &[u8], c: Configuration, which: Area) -> Place
    ensures { result ≡ place_in (length window.now) c which }
{
    if !c.is_allowed(window.len()) {
        return Place {
            offset: 0,
            length: 0,
        };
    }
    c.area_place(which)
}

// The area itself; empty where refused.
#[tactic(auto, unfolding(crate::specs::Places::area_of))]
pub fn area(window: &[u8], c: Configuration, which: Area) -> &[u8]
    ensures { result.now ≡ area_of window.now c which }
{
    let p = place_of(window, c, which);
    octets::part(window, p.offset as usize, p.length as usize)
}
