// Standard output, and how much was handed to it. Only this file can make a `Sent` or an `Unsent`: no write is made up
// or left out.
ghost use Rattle.std.specs.Prelude.{◌≡◌, length};
ghost use Rattle.bench.specs.Sending.{nothing_sent, Sends};

use std::io::Write;

// How many bytes were handed over.
#[derive(Clone, Copy)]
pub struct Sent {
    bytes: u64,
}

// A write failed, and was told on standard error.
#[derive(Clone, Copy)]
pub struct Unsent(());

impl Sent {
    pub fn nothing() -> Sent
        ensures { result ≡ nothing_sent }
    {
        Sent { bytes: 0 }
    }
}

// The text written whole, or the error told on standard error. Behind a write that failed nothing is written. The count
// stops at 2^64 - 1.
pub fn send(rt: HostRuntime, before: Result<Sent, Unsent>, text: &[u8]) -> Result<Sent, Unsent>
    ensures { Sends before (length text.now) result }
{
    let sent = before?;
    match rt.stdout().write_all(text) {
        Ok(()) => Ok(Sent {
            bytes: sent.bytes.saturating_add(text.len() as u64),
        }),
        Err(error) => {
            told::fail!(rt, "bench: standard output", error);
            Err(Unsent(()))
        }
    }
}
