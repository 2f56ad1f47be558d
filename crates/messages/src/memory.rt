// The bytes of a slot, as a part of the message memory.
ghost use Rattle.std.specs.Prelude.{◌≡◌};
ghost use Rattle.messages.specs.Run.{message};

// The message of an answer "done, with slot and length": what of those bytes lies in the memory.
pub fn message(memory: &[u8], slot: u8, length: usize) -> &[u8]
    ensures { result.now ≡ message memory.now slot length }
{
    octets::part(memory, 1024 * usize::from(slot), length)
}
