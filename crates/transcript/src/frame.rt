// One frame to one line: the arrival, the counts, and the line put to the output.
ghost use Rattle.std.specs.Prelude.{◌≡◌};
ghost use Rattle.records.specs.Line.{put, place_after};
ghost use Rattle.transcript.specs.Frame.{after_frame};

use crate::state::State;
use crate::{line, state};

// The state after a frame, and the place behind its line.
#[derive(Clone, Copy)]
pub struct Framed {
    pub state: State,
    pub behind: usize,
}

// The frame's line put to place `at` of the output. Where it does not fit nothing is written, and the place stays.
#[tactic(auto, unfolding(crate::specs::Frame::after_frame))]
pub fn frame_line(
    before: State,
    memory: &mut [u8],
    frame: &[u8],
    output: &mut [u8],
    at: usize,
) -> Framed
    ensures state { result.state ≡ (after_frame before memory.old frame.now).state }
    ensures memory { memory.new
        ≡ (after_frame before memory.old frame.now).memory }
    ensures behind { result.behind ≡ place_after output.old at
        (after_frame before memory.old frame.now).text }
    ensures output { output.new ≡ put output.old at
        (after_frame before memory.old frame.now).text }
{
    let received = rack::from_smbus(frame, state::ADDRESS, before.receiver, memory, state::TIME);
    let after = State {
        receiver: received.receiver,
        arrivals: state::one_more(before.arrivals),
        packets: state::with_packet(received.arrived, before.packets),
    };
    let line = line::line_of(received.arrived);
    Framed {
        state: after,
        behind: records::put_line(output, at, after.arrivals, line),
    }
}
