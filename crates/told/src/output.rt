// Standard output, write by write. What can't be written is told on standard error, and what follows is written all the
// same.
use crate::fail;
use std::io::Write as _;
use std::{fmt, io};

#[derive(Clone, Copy)]
pub struct Output {
    pub rt: HostRuntime,
    // how standard error hears of it
    pub name: &'static str,
}

impl Output {
    pub fn note(self, written: io::Result<()>) {
        if let Err(error) = written {
            fail!(self.rt, self.name, error);
        }
    }
}

// A write for each piece of a text: its words, and each number among them.
impl fmt::Write for Output {
    fn write_str(&mut self, piece: &str) -> fmt::Result {
        self.note(self.rt.stdout().write_all(piece.as_bytes()));
        Ok(())
    }
}
