// Bytes in hexadecimal.
use arrayvec::ArrayString;
use std::fmt;
use std::fmt::Write as _;

// A space and two digits a byte, in one piece.
#[derive(Drop)]
pub struct Bytes<'a>(pub &'a [u8]);

impl fmt::Display for Bytes<'_> {
    fn fmt<W: fmt::Write>(&self, f: &mut fmt::Formatter<W>) -> fmt::Result {
        for byte in self.0 {
            let mut piece = ArrayString::<3>::new();
            write!(piece, " {byte:02X}")?;
            f.write_str(piece.as_str())?;
        }
        Ok(())
    }
}
