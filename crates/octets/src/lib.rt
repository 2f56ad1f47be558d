// What every carrier needs of lists of bytes, once: a byte, a part, a word in either byte order, a copy into the
// middle.
#![tactic(auto)]

mod copy;
mod read;
mod word;

pub use copy::{lay, lay_byte};
pub use read::{byte_at, part};
pub use word::{ByteOrder, HighFirst, LowFirst, lay_word, word_at};
