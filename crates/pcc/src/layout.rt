// The two fixed words of a region.

// The id stands in its low byte.
pub const SIGNATURE: u32 = 0x5043_4300;

// The letters MCTP.
pub const COMMAND: u32 = 0x5054_434D;
