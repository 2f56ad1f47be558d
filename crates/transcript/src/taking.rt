// A chunk of the input: its whole records, as long as the output has room for a line.
ghost use Rattle.std.specs.Prelude.{◌≡◌, ◌<◌, length};
ghost use Rattle.octets.specs.Bytes.{laid};
ghost use Rattle.records.specs.Record.{joined, records_of, rest_of};
ghost use Rattle.transcript.specs.Taking.{chunk_frames, chunk_run};

use crate::frame;
use crate::state::State;
use records::Record;

// The state after a chunk, how many bytes of the input it took, and how many of the output it wrote.
#[derive(Clone, Copy)]
pub struct Taken {
    pub state: State,
    pub read: usize,
    pub written: usize,
}

// Behind the input's whole records stand fewer bytes than the longest record has.
pub fn chunk(before: State, memory: &mut [u8], input: &[u8], output: &mut [u8]) -> Taken
    ensures state { result.state
        ≡ (chunk_run (length output.old) before memory.old input.now).state }
    ensures memory { memory.new
        ≡ (chunk_run (length output.old) before memory.old input.now).memory }
    ensures read { result.read ≡ length (joined
        (chunk_frames (length output.old) before memory.old (records_of input.now))) }
    ensures written { result.written ≡ length
        (chunk_run (length output.old) before memory.old input.now).text }
    ensures output { output.new ≡ laid output.old 0
        (chunk_run (length output.old) before memory.old input.now).text }
    ensures short { length (rest_of input.now) < 256 }
{
    let mut state = before;
    let mut read = 0;
    let mut written = 0;
    while records::LINE_ROOM <= output.len() - written {
        let Record::Whole { start, size } = records::record_at(input, read) else {
            break;
        };
        let end = start + size;
        let framed = frame::frame_line(state, memory, &input[start..end], output, written);
        state = framed.state;
        written = framed.behind;
        read = end;
    }
    Taken {
        state,
        read,
        written,
    }
}
