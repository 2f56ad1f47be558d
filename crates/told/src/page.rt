// A page on standard output, line by line.
ghost use Rattle.std.specs.Prelude.{◌≡◌, Some, IsNone, true, false};
ghost use Rattle.told.specs.Page.{is_begun};

use crate::output::Output;
use std::fmt;
use std::fmt::Write as _;

// The page between two lines.
#[derive(Drop)]
pub struct Page {
    output: Output,
    // what ends the line before
    end: &'static str,
    // an empty line before a heading, but for the first
    gap: &'static str,
    // a heading that waits for its first line
    heading: Option<&'static str>,
}

impl Page {
    // An empty page. Standard error hears of standard output by this name.
    pub fn new(rt: HostRuntime, name: &'static str) -> Page
        ensures begun { is_begun result.end.now ≡ false }
        ensures heading { IsNone result.heading }
    {
        Page {
            output: Output { rt, name },
            end: "",
            gap: "",
            heading: None,
        }
    }

    // A heading for the lines that follow, with an empty line before it, but for the first.
    pub fn section(&mut self, heading: &'static str)
        ensures { self.new.heading ≡ Some heading.entry }
    {
        self.heading = Some(heading);
    }

    // A line: in one write the end of the line before, a heading that waits, and the words; then the answer.
    pub fn line<D: fmt::Display + Drop>(&mut self, words: &str, answer: D)
        ensures begun { is_begun self.new.end.now ≡ true }
        ensures heading { IsNone self.new.heading }
    {
        let begun = match self.heading.take() {
            Some(heading) => print!(self.output.rt; "{}{}{heading}\n{words}", self.end, self.gap),
            None => print!(self.output.rt; "{}{words}", self.end),
        };
        self.output.note(begun);
        self.end = "\n";
        self.gap = "\n";
        let _ = self.output.write(answer);
    }

    // Ends the last line, so that what is told so far is written whole.
    pub fn end_line(&mut self)
        ensures { is_begun self.new.end.now ≡ false }
    {
        self.output.note(self.output.rt.print(self.end));
        self.end = "";
    }
}
