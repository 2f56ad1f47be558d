// The descriptor at the window's front, read into a checked configuration.
ghost use Rattle.std.specs.Prelude.{◌≡◌};
ghost use Rattle.descriptor.specs.Reading.{signature_right, version_right, type_right, base_at, configuration_in};
ghost use Rattle.descriptor.specs.Reading.{described_in, described_of};

use crate::configuration::Configuration;
use crate::place::Place;
use mctp::Refusal;
use octets::HighFirst;

// A configuration that the window can have.
#[tactic(auto, unfolding(crate::specs::Reading::described_of))]
pub fn read_descriptor(window: &[u8]) -> Result<Configuration, Refusal>
    ensures { described_in result ≡ described_of window.now }
{
    let signed = 64 <= window.len() && signature_right(window);
    if !signed {
        return Err(Refusal::Signature);
    }
    let c = configuration_in(window);
    let right = version_right(window) && type_right(window) && c.is_allowed(window.len());
    if !right {
        return Err(Refusal::Descriptor);
    }
    Ok(c)
}

fn signature_right(window: &[u8]) -> bool
    ensures { result ≡ signature_right window.now }
{
    window.starts_with(b"#MMBI$")
}

fn version_right(window: &[u8]) -> bool
    ensures { result ≡ version_right window.now }
{
    octets::byte_at(window, 6) % 16 == 1
}

fn type_right(window: &[u8]) -> bool
    ensures { result ≡ type_right window.now }
{
    octets::byte_at(window, 24) % 16 == 1
}

// A base address in bytes: bits 28..0 of its word, in units of 8 bytes.
fn base_at(window: &[u8], at: usize) -> u32
    ensures { result ≡ base_at window.now at }
{
    octets::word_at::<HighFirst>(window, at) % 536870912 * 8
}

#[tactic(auto, unfolding(crate::specs::Reading::configuration_in))]
fn configuration_in(window: &[u8]) -> Configuration
    ensures { result ≡ configuration_in window.now }
{
    Configuration {
        b2h: Place {
            offset: base_at(window, 8),
            length: octets::word_at::<HighFirst>(window, 16),
        },
        h2b: Place {
            offset: base_at(window, 12),
            length: octets::word_at::<HighFirst>(window, 20),
        },
        ros: base_at(window, 32),
        rws: base_at(window, 36),
    }
}
