// The bench program: records from standard input, a line for each to standard output, and the two counts.
#![tactic(auto)]

mod sending;

ghost use Rattle.std.specs.Prelude.{◌<◌};

use sending::{Sent, Unsent};
use std::io;
use std::io::Read;
use transcript::State;

// "it keeps message memory of 4,096 zero bytes"
fn main(rt: HostRuntime) {
    let mut bench = Bench {
        rt,
        state: transcript::set_up(),
        memory: [0; 4096],
        input: [0; 16384],
        held: 0,
        output: [0; 16384],
        sent: Ok(Sent::nothing()),
    };
    if let Err(error) = bench.run() {
        told::fail!(rt, "bench: standard input", error);
    }
}

// What the program keeps from turn to turn: the receiver and the counts, the message memory, the input with what is
// held of it at its front, and how much was sent.
#[derive(Drop)]
struct Bench {
    rt: HostRuntime,
    state: State,
    memory: [u8; 4096],
    input: [u8; 16384],
    held: usize,
    output: [u8; 16384],
    sent: Result<Sent, Unsent>,
    // less than the longest record
    ghost few: { held < 256 },
}

impl Bench {
    ghost use Rattle.std.specs.Prelude.{◌≡◌, ◌≤◌, ◌+◌, length, take, drop, replicate, Ok, IfOk, OnErr, is_err};
    ghost use Rattle.transcript.specs.State.{start};
    ghost use Rattle.bench.specs.Sending.{nothing_sent};
    ghost use Rattle.bench.specs.Main.{Takes, Drains, Turns, Stays, Finishes, Runs};

    // Turn after turn until the input ends or a call fails; then the last line, but not after a read that failed.
    // A proved loop has to end, and nothing says that the input does: 2^64 - 1 turns are more than a run uses up.
    fn run(&mut self) -> io::Result<()>
        requires memory_value { self.old.memory ≡ replicate 4096 0 }
        requires fresh { (self.old.state ≡ start) × (self.old.held ≡ 0) × (self.old.sent ≡ Ok nothing_sent) }
        ensures { Runs self.old.memory (is_err result) self.new }
    {
        for _ in 0..u64::MAX {
            if !self.turn()? {
                break;
            }
        }
        self.finish();
        Ok(())
    }

    // One turn: reads, takes the whole records, and moves what is left to the front. Whether more is to come.
    fn turn(&mut self) -> io::Result<bool>
        ensures taken { IfOk result (λ more. Turns self.old more self.new) }
        ensures failed { OnErr result (Stays self.old self.new) }
    {
        let came = self.fill()?;
        let end = self.held + came;
        let read = self.drain(end);
        self.held = transcript::to_front(&mut self.input, read, end);
        Ok(self.sent.is_ok() && 0 < came)
    }

    // Reads once behind the bytes held: how many came.
    fn fill(&mut self) -> io::Result<usize>
        ensures stays { Stays self.old self.new }
        ensures within { IfOk result (λ came. self.new.held + came ≤ length self.new.input) }
    {
        self.rt.stdin().read(&mut self.input[self.held..])
    }

    // Takes chunk after chunk of the input up to `end`, until no whole record is left: how many bytes were taken.
    fn drain(&mut self, end: usize) -> usize
        requires { end ≤ length self.old.input }
        ensures { Drains self.old (take end self.old.input) result self.new }
    {
        let mut read = 0;
        loop {
            let more = self.chunk(read, end);
            read += more;
            if more == 0 {
                return read;
            }
        }
    }

    // Takes a chunk of the input from `from` up to `end` and sends its lines: how many bytes it took. Behind a write
    // that failed nothing is sent, and the records are taken all the same.
    fn chunk(&mut self, from: usize, end: usize) -> usize
        requires { (from ≤ end) × (end ≤ length self.old.input) }
        ensures { Takes self.old (drop from (take end self.old.input)) result self.new }
    {
        let bytes = &self.input[..end];
        let taken = transcript::chunk(
            self.state,
            &mut self.memory,
            &bytes[from..],
            &mut self.output,
        );
        self.state = taken.state;
        self.sent = sending::send(self.rt, self.sent, &self.output[..taken.written]);
        taken.read
    }

    // Sends the last line.
    fn finish(&mut self)
        ensures { Finishes self.old self.new }
    {
        let end = transcript::last_line(self.state, &mut self.output);
        self.sent = sending::send(self.rt, self.sent, &self.output[..end]);
    }
}
