// One packet on the three paths, each to a fresh receiver.
use crate::answers::{Progress, answered};
use crate::packets::{MEMORY, ORDER, fresh};
use mctp::Refusal;
use mmbi::{Flags, Pointers};
use rack::Received;
use ring::Offered;
use std::fmt;
use told::{Answer, Page};

pub fn tell(page: &mut Page) {
    page.section("The packet 01 09 0A C8 00 on the three paths, each to a fresh receiver at EID 9");
    page.line("path smbus: ", Answer(by_smbus()));
    page.line("path pcc: ", Answer(by_pcc()));
    page.line("path ring: ", Answer(by_ring()));
}

// What a carrier brought: a packet, and the receiver's answer to it; or none.
#[derive(Drop)]
pub struct Delivery(Option<Answer<Progress>>);

impl From<Received> for Delivery {
    fn from(received: Received) -> Delivery {
        Delivery(
            received
                .arrived
                .ok()
                .map(|arrived| answered(arrived.answer)),
        )
    }
}

impl fmt::Display for Delivery {
    fn fmt<W: fmt::Write>(&self, f: &mut fmt::Formatter<W>) -> fmt::Result {
        match &self.0 {
            Some(answer) => answer.fmt(f),
            None => write!(f, "no packet"),
        }
    }
}

fn by_smbus() -> Result<Delivery, Refusal> {
    let mut frame = [0; 10];
    smbus::write(&mut frame, &ORDER, 32, 17)?;
    let received = rack::from_smbus(&frame, 32, fresh(), &mut MEMORY, 0);
    Ok(Delivery::from(received))
}

fn by_pcc() -> Result<Delivery, Refusal> {
    let mut region = [0; 84];
    pcc::write(&mut region, 3, true, &ORDER)?;
    let received = rack::from_pcc(&region, 3, fresh(), &mut MEMORY, 0);
    Ok(Delivery::from(received))
}

fn by_ring() -> Result<Delivery, Refusal> {
    let mut bytes = [0; 128];
    let mut offered = Offered {
        configured: 128,
        flags: Flags::NORMAL_RUNTIME,
        pointers: Pointers { read: 0, write: 0 },
    };
    offered.pointers.write = ring::write(&mut bytes, offered, &ORDER)?;
    let received = rack::from_ring(&bytes, offered, &mut [0; 68], fresh(), &mut MEMORY, 0);
    Ok(Delivery::from(received))
}
