// "records, each a length byte and that many bytes of one SMBus frame": what stands at a place of a list of bytes.
ghost use Rattle.std.specs.Prelude.{◌≡◌};
ghost use Rattle.records.specs.Record.{record_at};

#[derive(Clone, Copy)]
pub enum Record {
    // The frame's bytes; of a length byte 0, the empty frame.
    Whole { start: usize, size: usize },
    // A length byte whose bytes run past the end.
    Cut,
    // Nothing is left.
    End,
}

// What stands at place `at`, which is taken for a length byte's.
pub fn record_at(s: &[u8], at: usize) -> Record
    ensures { result ≡ record_at s.now at }
{
    let Some(size) = s.get(at) else {
        return Record::End;
    };
    let size = usize::from(*size);
    let start = at + 1;
    if start + size <= s.len() {
        Record::Whole { start, size }
    } else {
        Record::Cut
    }
}
