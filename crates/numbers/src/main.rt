// Document 01's numbers, run on the proved calls and told in words.
#![tactic(auto)]

mod ages;
mod answers;
mod frames;
mod headers;
mod keys;
mod messages;
mod packets;
mod panel;
mod paths;
mod regions;
mod sending;
mod states;

use told::Page;

fn main(rt: HostRuntime) {
    let mut page = Page::new(rt, "numbers: standard output");
    frames::tell(&mut page);
    regions::tell(&mut page);
    states::tell(&mut page);
    headers::tell(&mut page);
    messages::tell(&mut page);
    keys::tell(&mut page);
    panel::tell(&mut page);
    ages::tell(&mut page);
    sending::tell(&mut page);
    paths::tell(&mut page);
    page.end_line();
}
