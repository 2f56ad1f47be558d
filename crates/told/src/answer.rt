// What calls answer, in words.
ghost use Rattle.std.specs.Prelude.{◌++◌, Some, codes, decimal};
ghost use Rattle.told.specs.Answer.{answer_text, notify_text, refused_text};

use mctp::Refusal;
use pcc::Packet;
use std::fmt;

// What a call gave, in words of its own, or the number of its refusal.
#[derive(Drop)]
pub struct Answer<T>(pub Result<T, Refusal>);

impl<T: fmt::Display> fmt::Display for Answer<T> {
    ghost output = { λ answer. answer_text T.output answer.0 };

    fn fmt<W: fmt::Write>(&self, f: &mut fmt::Formatter<W>) -> fmt::Result {
        match &self.0 {
            Ok(given) => given.fmt(f),
            Err(why) => Refused(*why).fmt(f),
        }
    }
}

// A refusal, by its number.
#[derive(Drop)]
pub struct Refused(pub Refusal);

impl fmt::Display for Refused {
    ghost output = { λ refused. Some (refused_text refused.0) };

    fn fmt<W: fmt::Write>(&self, f: &mut fmt::Formatter<W>) -> fmt::Result {
        write!(f, "refused {}", self.0.number())
    }
}

// A call that gives nothing but that it is done.
#[derive(Drop)]
pub struct Good;

impl fmt::Display for Good {
    ghost output = { λ _. Some (codes "good") };

    fn fmt<W: fmt::Write>(&self, f: &mut fmt::Formatter<W>) -> fmt::Result {
        write!(f, "good")
    }
}

// A packet found in an SMBus frame.
#[derive(Drop)]
pub struct SmbusPacket {
    pub size: usize,
    pub source: u8,
}

impl fmt::Display for SmbusPacket {
    ghost output = { λ packet. Some (codes "good, packet of " ++ (decimal packet.size ++ (codes " bytes from address "
        ++ decimal packet.source))) };

    fn fmt<W: fmt::Write>(&self, f: &mut fmt::Formatter<W>) -> fmt::Result {
        let SmbusPacket { size, source } = self;
        write!(f, "good, packet of {size} bytes from address {source}")
    }
}

// A packet found in a PCC region.
#[derive(Drop)]
pub struct PccPacket(pub Packet);

impl fmt::Display for PccPacket {
    ghost output = { λ packet. Some (codes "good, packet of "
        ++ (decimal packet.0.size ++ notify_text packet.0.notify)) };

    fn fmt<W: fmt::Write>(&self, f: &mut fmt::Formatter<W>) -> fmt::Result {
        let Packet { size, notify } = self.0;
        if notify {
            write!(f, "good, packet of {size} bytes, notify set")
        } else {
            write!(f, "good, packet of {size} bytes, notify clear")
        }
    }
}

#[cfg(test)]
mod tests {
    use super::*;
    use std::test::Fail;

    #[test]
    fn answers_in_words(rt: HostRuntime) -> Result<(), Fail> {
        let alloc = rt.alloc();
        let refused: Answer<Good> = Answer(Err(Refusal::Size));
        assert_eq!(rt; format!(in alloc; "{refused}")?.as_str(), "refused 3");
        let packet = Answer(Ok(SmbusPacket {
            size: 5,
            source: 17,
        }));
        assert_eq!(rt;
            format!(in alloc; "{packet}")?.as_str(),
            "good, packet of 5 bytes from address 17"
        );
        Ok(())
    }
}
