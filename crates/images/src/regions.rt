// The PCC region.
use crate::ORDER;
use crate::bytes::Bytes;
use mctp::Refusal;
use told::{Answer, Page, PccPacket};

pub fn tell(page: &mut Page) {
    let mut region = [0; 84];
    let _ = pcc::write(&mut region, 3, true, &ORDER);
    page.section("PCC");
    page.line(
        "pcc packet 01 09 0A C8 00 under id 3 with notify is the region",
        Bytes(&region[..21]),
    );
    for (words, bytes, id) in [
        ("pcc that region read under id 3: ", &region[..], 3),
        ("pcc that region read under id 4: ", &region[..], 4),
        ("pcc that region read under id 256: ", &region[..], 256),
        (
            "pcc that region without its last byte, 83 bytes: ",
            &region[..83],
            3,
        ),
    ] {
        page.line(words, Answer(read(bytes, id)));
    }
}

fn read(region: &[u8], id: u32) -> Result<PccPacket, Refusal> {
    pcc::read(region, id).map(PccPacket)
}
