// The carriers' byte images, shown byte for byte and read back. The proved calls write all but the descriptor and the
// single bits and bytes of the words in `words::tell_bits`.
#![tactic(auto)]

mod bytes;
mod descriptors;
mod frames;
mod regions;
mod rings;
mod windows;
mod words;

use told::Page;

// The packet in the images: to EID 9 from EID 10, start and end set, with one byte of body.
const ORDER: [u8; 5] = [0x01, 0x09, 0x0A, 0xC8, 0x00];

// In three parts: packets, what a descriptor tells, single words.
fn main(rt: HostRuntime) {
    let mut page = Page::new(rt, "images: standard output");
    frames::tell(&mut page);
    regions::tell(&mut page);
    rings::tell(&mut page);
    page.end_line();
    descriptors::tell(&mut page);
    windows::tell_words(&mut page);
    page.end_line();
    words::tell_bits(&mut page);
    words::tell_stores(&mut page);
    page.end_line();
}
