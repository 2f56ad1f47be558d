// The length word of a PCC region.
use crate::packets::ORDER;
use mctp::Refusal;
use told::{Answer, Page, PccPacket};

pub fn tell(page: &mut Page) {
    page.section("PCC");
    for (words, length) in [
        ("pcc length 8: ", 8),
        ("pcc length 9: ", 9),
        ("pcc length 72: ", 72),
        ("pcc length 73: ", 73),
    ] {
        page.line(words, Answer(read(length)));
    }
}

// A region that is right in all but, perhaps, its length word.
fn read(length: u32) -> Result<PccPacket, Refusal> {
    let mut region = [0; 84];
    pcc::write(&mut region, 3, false, &ORDER)?;
    region[8..12].copy_from_slice(&length.to_le_bytes());
    pcc::read(&region, 3).map(PccPacket)
}
