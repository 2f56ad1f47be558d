// Endpoint IDs: which are null, broadcast, reserved, or one endpoint's own.
ghost use Rattle.std.specs.Prelude.{◌≡◌};
ghost use Rattle.mctp.specs.Eid.{null_eid, broadcast_eid, reserved_eid, endpoint_eid};

#[derive(Clone, Copy, PartialEq, Eq, PartialOrd, Ord)]
pub struct Eid(pub u8);

impl Eid {
    pub const NULL: Eid = Eid(0);

    pub const FIRST_RESERVED: Eid = Eid(1);

    pub const LAST_RESERVED: Eid = Eid(7);

    pub const BROADCAST: Eid = Eid(255);

    pub fn is_null(self) -> bool
        ensures { result ≡ null_eid self.0 }
    {
        self == Eid::NULL
    }

    pub fn is_broadcast(self) -> bool
        ensures { result ≡ broadcast_eid self.0 }
    {
        self == Eid::BROADCAST
    }

    pub fn is_reserved(self) -> bool
        ensures { result ≡ reserved_eid self.0 }
    {
        (Eid::FIRST_RESERVED..=Eid::LAST_RESERVED).contains(&self)
    }

    // What one endpoint goes by: an own EID, or a source that may send.
    pub fn is_endpoint(self) -> bool
        ensures { result ≡ endpoint_eid self.0 }
    {
        !self.is_reserved() && !self.is_broadcast()
    }
}
