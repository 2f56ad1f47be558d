// A configuration: where the rings and the structures lie, and whether a window of a given size can hold them so.
ghost use Rattle.std.specs.Prelude.{◌≡◌};
ghost use Rattle.descriptor.specs.Configuration.{structure_at, descriptor_place, area_place, inside, clear, on_units};
ghost use Rattle.descriptor.specs.Configuration.{allowed};

use crate::place::Place;

// B2H and H2B are the rings from the controller to the host and back; `ros` and `rws` are the offsets of Host_ROS and
// Host_RWS.
#[derive(Clone, Copy, PartialEq, Eq)]
pub struct Configuration {
    pub b2h: Place,
    pub h2b: Place,
    pub ros: u32,
    pub rws: u32,
}

// What lies in the window besides the descriptor.
#[derive(Clone, Copy, PartialEq, Eq)]
pub enum Area {
    B2h,
    H2b,
    Ros,
    Rws,
}

// The descriptor's own place.
const DESCRIPTOR: Place = Place {
    offset: 0,
    length: 64,
};

impl Configuration {
    // Whether document 01's list lets this configuration be used in a window of this size.
    #[tactic(auto, unfolding(crate::specs::Configuration::allowed))]
    pub fn is_allowed(self, window: usize) -> bool
        ensures { result ≡ allowed window self }
    {
        self.is_inside(window)
            && self.b2h.is_apart(self.h2b)
            && self.is_clear(self.b2h)
            && self.is_clear(self.h2b)
            && mmbi::length_right(self.b2h.length as usize)
            && mmbi::length_right(self.h2b.length as usize)
            && self.is_on_units()
    }

    // Where this area lies by the configuration alone.
    pub fn area_place(self, which: Area) -> Place
        ensures { result ≡ area_place self which }
    {
        match which {
            Area::B2h => self.b2h,
            Area::H2b => self.h2b,
            Area::Ros => structure_at(self.ros),
            Area::Rws => structure_at(self.rws),
        }
    }

    #[tactic(auto, unfolding(crate::specs::Configuration::inside))]
    fn is_inside(self, window: usize) -> bool
        ensures { result ≡ inside window self }
    {
        DESCRIPTOR.lies_in(window)
            && self.b2h.lies_in(window)
            && self.h2b.lies_in(window)
            && structure_at(self.ros).lies_in(window)
            && structure_at(self.rws).lies_in(window)
    }

    // Whether this ring overlaps none of the descriptor and the structures.
    #[tactic(auto, unfolding(crate::specs::Configuration::clear))]
    fn is_clear(self, ring: Place) -> bool
        ensures { result ≡ clear self ring }
    {
        ring.is_apart(DESCRIPTOR)
            && ring.is_apart(structure_at(self.ros))
            && ring.is_apart(structure_at(self.rws))
    }

    // Whether every base is one that a descriptor can give.
    fn is_on_units(self) -> bool
        ensures { result ≡ on_units self }
    {
        self.b2h.offset % 8 == 0
            && self.h2b.offset % 8 == 0
            && self.ros % 8 == 0
            && self.rws % 8 == 0
    }
}

fn structure_at(offset: u32) -> Place
    ensures { result ≡ structure_at offset }
{
    Place { offset, length: 8 }
}
