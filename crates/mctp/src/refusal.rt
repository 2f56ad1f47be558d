// The refusals of documents 01 and 02, by name; each has one number.
ghost use Rattle.std.specs.Prelude.{◌≡◌};
ghost use Rattle.mctp.specs.Refusals.{number_of};

#[derive(Clone, Copy, PartialEq, Eq)]
pub enum Refusal {
    Setup = 1,
    Room = 2,
    Size = 3,
    Address = 4,
    Command = 5,
    Count = 6,
    SourceBit = 7,
    Pec = 8,
    Signature = 9,
    Descriptor = 10,
    NotRunning = 11,
    Pointer = 12,
    BadPacket = 13,
    OtherKind = 14,
    Version = 15,
    NotOurs = 16,
    Source = 17,
    NoSlot = 18,
    NoStart = 19,
    Sequence = 20,
    Unit = 21,
    TooLong = 22,
    PastEnd = 23,
}

impl Refusal {
    pub fn number(self) -> u8
        ensures { result ≡ number_of self }
    {
        self as u8
    }
}
