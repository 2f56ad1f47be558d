// What the bench program reads and writes: records of a length byte and a frame, decimal numbers, and its lines.
#![tactic(auto)]

mod decimal;
mod line;
mod record;

pub use decimal::{count_digits, lay_decimal};
pub use line::{LINE_ROOM, Line, put_last_line, put_line};
pub use record::{Record, record_at};
