// The lines that the bench program writes, each put whole or not at all.
ghost use Rattle.std.specs.Prelude.{◌≡◌, ◌+◌, ◌≤◌, leb, length};
ghost use Rattle.records.specs.Decimal.{decimal};
ghost use Rattle.records.specs.Line.{named, ending, pair, line_bytes, last_line, put, place_after, Placed};

use crate::decimal::{count_digits, lay_decimal};

// What one record's line tells; a refusal by its number.
#[derive(Clone, Copy)]
pub enum Line {
    Done {
        slot: u8,
        length: usize,
        again: bool,
    },
    Held {
        slot: u8,
        bytes: usize,
        again: bool,
    },
    Refused {
        number: u8,
    },
}

// No line is longer, whatever its numbers.
pub const LINE_ROOM: usize = 86;

// Line `number` put to place `at` of `out`, and the place after it. Where it does not fit nothing is written, and the
// place stays.
pub fn put_line(out: &mut [u8], at: usize, number: u64, line: Line) -> usize
    ensures place { result ≡ place_after out.old at (line_bytes number line) }
    ensures output { out.new ≡ put out.old at (line_bytes number line) }
{
    if out.len() < at {
        return at;
    }
    if fits(out.len() - at, number, line) {
        lay_line(out, at, number, line)
    } else {
        at
    }
}

// The last line, put in the same way.
pub fn put_last_line(out: &mut [u8], at: usize, arrivals: u64, packets: u64) -> usize
    ensures place { result ≡ place_after out.old at (last_line arrivals packets) }
    ensures output { out.new ≡ put out.old at (last_line arrivals packets) }
{
    if out.len() < at {
        return at;
    }
    if pair_size(18, arrivals, packets, false) <= out.len() - at {
        lay_pair(
            out,
            at,
            b"arrivals ",
            arrivals,
            b" packets ",
            packets,
            false,
        )
    } else {
        at
    }
}

// The size of a line is worked out only where little room is left.
fn fits(room: usize, number: u64, line: Line) -> bool
    ensures { result ≡ leb (length (line_bytes number line)) room }
{
    if LINE_ROOM <= room {
        return true;
    }
    line_size(number, line) <= room
}

// 19 letters in ` done slot ` and ` length `, 18 in ` held slot ` and ` bytes `, 10 in ` refused ` and the line's end.
fn line_size(number: u64, line: Line) -> usize
    ensures { result ≡ length (line_bytes number line) }
{
    let front = count_digits(number);
    match line {
        Line::Done {
            slot,
            length,
            again,
        } => front + pair_size(19, u64::from(slot), length as u64, again),
        Line::Held { slot, bytes, again } => front
            + pair_size(18, u64::from(slot), bytes as u64, again),
        Line::Refused { number } => front + 10 + count_digits(u64::from(number)),
    }
}

// The size of two words with their numbers and an ending; the words have `letters` bytes.
fn pair_size(letters: usize, a: u64, b: u64, again: bool) -> usize
    requires { letters ≤ 32 }
    ensures size { result ≡ letters + (length (decimal a) + (length (decimal b) + length (ending again))) }
    ensures few { result ≤ 79 }
{
    let digits = count_digits(a) + count_digits(b);
    if again {
        letters + digits + 7
    } else {
        letters + digits + 1
    }
}

fn lay_line(out: &mut [u8], at: usize, number: u64, line: Line) -> usize
    requires { at ≤ length out.old }
    ensures { Placed out.old at (line_bytes number line) result out.new }
{
    let behind = at + lay_decimal(out, at, number);
    match line {
        Line::Done {
            slot,
            length,
            again,
        } => {
            lay_pair(
                out,
                behind,
                b" done slot ",
                u64::from(slot),
                b" length ",
                length as u64,
                again,
            )
        }
        Line::Held { slot, bytes, again } => {
            lay_pair(
                out,
                behind,
                b" held slot ",
                u64::from(slot),
                b" bytes ",
                bytes as u64,
                again,
            )
        }
        Line::Refused { number } => {
            let end = lay_named(out, behind, b" refused ", u64::from(number));
            lay_ending(out, end, false)
        }
    }
}

// Two words, each with its number, and the ending.
fn lay_pair(
    out: &mut [u8],
    at: usize,
    first: &[u8],
    a: u64,
    second: &[u8],
    b: u64,
    again: bool,
) -> usize
    requires { (at ≤ length out.old + 20) × (length first.now ≤ 16) × (length second.now ≤ 16) }
    ensures { Placed out.old at (pair first.now a second.now b again) result
        out.new }
{
    let middle = lay_named(out, at, first, a);
    let end = lay_named(out, middle, second, b);
    lay_ending(out, end, again)
}

// A word and its number.
fn lay_named(out: &mut [u8], at: usize, word: &[u8], n: u64) -> usize
    requires { (at ≤ length out.old + 128) × (length word.now ≤ 16) }
    ensures placed { Placed out.old at (named word.now n) result out.new }
    ensures near { result ≤ at + 36 }
{
    octets::lay(out, at, word);
    let behind = at + word.len();
    behind + lay_decimal(out, behind, n)
}

// ` again` after a restart, and the line's end.
fn lay_ending(out: &mut [u8], at: usize, again: bool) -> usize
    requires { at ≤ length out.old + 128 }
    ensures { Placed out.old at (ending again) result out.new }
{
    if again {
        octets::lay(out, at, b" again\n");
        at + 7
    } else {
        octets::lay_byte(out, at, b'\n');
        at + 1
    }
}
