// Standard output, a write for each piece of a text: its words, and each answer among them.
use std::fmt;
use std::io::Write as _;

#[derive(Clone, Copy)]
pub struct Output(pub HostRuntime);

// Standard error hears of a piece that can't be written, and nothing follows it.
impl fmt::Write for Output {
    fn write_str(&mut self, piece: &str) -> fmt::Result {
        match self.0.stdout().write_all(piece.as_bytes()) {
            Ok(()) => Ok(()),
            Err(error) => {
                told::fail!(self.0, "resets: standard output", error);
                Err(fmt::Error)
            }
        }
    }
}
