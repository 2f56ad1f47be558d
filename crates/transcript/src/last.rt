// The last line of a state.
ghost use Rattle.std.specs.Prelude.{◌≡◌};
ghost use Rattle.records.specs.Line.{put, place_after};
ghost use Rattle.transcript.specs.Last.{closing};

use crate::state::State;

// The line of the two counts put to the output's front, and its length; where it does not fit, nothing and 0.
pub fn last_line(state: State, output: &mut [u8]) -> usize
    ensures place { result ≡ place_after output.old 0 (closing state) }
    ensures output { output.new ≡ put output.old 0 (closing state) }
{
    records::put_last_line(output, 0, state.arrivals, state.packets)
}
