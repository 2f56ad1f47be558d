// What an arrival's answer is as a line.
ghost use Rattle.std.specs.Prelude.{◌≡◌, Ok, Err};
ghost use Rattle.rack.specs.Answers.{tells};
ghost use Rattle.rack.specs.Arrivals.{without};
ghost use Rattle.receiver.specs.Step.{says};
ghost use Rattle.transcript.specs.Line.{line_of_said, line_without, line_of};

use mctp::Refusal;
use rack::{Arrived, NoPacket};
use receiver::Kept;
use records::Line;

pub fn line_of(arrived: Result<Arrived, NoPacket>) -> Line
    ensures { result ≡ line_of (tells arrived) }
{
    match arrived {
        Ok(arrived) => line_of_answer(arrived.answer),
        Err(why) => line_without(why),
    }
}

fn line_of_answer(answer: Result<Kept, Refusal>) -> Line
    ensures { result ≡ line_of_said (says answer) }
{
    match answer {
        Ok(kept) => line_of_kept(kept),
        Err(refusal) => refused(refusal),
    }
}

fn line_of_kept(kept: Kept) -> Line
    ensures { result ≡ line_of_said (says (Ok kept)) }
{
    match kept {
        Kept::Held { slot, bytes, again } => Line::Held { slot, bytes, again },
        Kept::Done {
            slot,
            length,
            again,
        } => Line::Done {
            slot,
            length,
            again,
        },
    }
}

fn line_without(why: NoPacket) -> Line
    ensures { result ≡ line_without (without why) }
{
    match why {
        NoPacket::Empty => Line::Refused { number: 0 },
        NoPacket::Skipped { refusal, .. } | NoPacket::Refused(refusal) => refused(refusal),
    }
}

fn refused(refusal: Refusal) -> Line
    ensures { result ≡ line_of_said (says (Err refusal)) }
{
    Line::Refused {
        number: refusal.number(),
    }
}
