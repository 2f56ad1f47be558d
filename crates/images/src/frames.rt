// The SMBus frame.
use crate::ORDER;
use crate::bytes::Bytes;
use mctp::Refusal;
use smbus::Packet;
use told::{Answer, Page, SmbusPacket};

pub fn tell(page: &mut Page) {
    let mut frame = [0; 10];
    let _ = smbus::write(&mut frame, &ORDER, 32, 17);
    page.section("SMBus");
    page.line(
        "smbus packet 01 09 0A C8 00 from address 17 to address 32 is the frame",
        Bytes(&frame),
    );
    for (words, own) in [
        ("smbus that frame read at address 32: ", 32),
        ("smbus that frame read at address 33: ", 33),
        ("smbus that frame read at address 128: ", 128),
    ] {
        page.line(words, Answer(read(&frame, own)));
    }
}

fn read(frame: &[u8], own: u8) -> Result<SmbusPacket, Refusal> {
    let Packet { source } = smbus::read(frame, own)?;
    Ok(SmbusPacket {
        size: smbus::packet(frame, own).len(),
        source,
    })
}
