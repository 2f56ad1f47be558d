// The age of a slot, and slots freed by age.
ghost use Rattle.std.specs.Prelude.{◌≡◌};
ghost use Rattle.slots.specs.Ages.{age, too_old, expired};

use crate::change::with_slot;
use crate::state::{Receiver, Slot};

// The receiver at this millisecond count: every slot that is older than the limit is freed.
pub fn expired(receiver: Receiver, time: u32) -> Receiver
    ensures { result ≡ expired time receiver }
{
    let mut next = receiver;
    for slot in 0..4 {
        if too_old(receiver.setup.limit, time, next.slots[slot]) {
            next = with_slot(next, slot, Slot::FREE);
        }
    }
    next
}

fn too_old(limit: u32, time: u32, slot: Slot) -> bool
    ensures { result ≡ too_old limit time slot.state slot.since }
{
    !slot.is_free() & (limit < age(time, slot.since))
}

// "Age is now minus then, modulo 2^32."
fn age(time: u32, since: u32) -> u32
    ensures { result ≡ age time since }
{
    time.wrapping_sub(since)
}
