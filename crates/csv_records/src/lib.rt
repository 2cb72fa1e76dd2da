// Records of RFC 4180, read in place: a reading answers places in the text and copies nothing.
#![tactic(auto)]

ghost use Rattle.std.specs.Prelude.{◌≡◌};
ghost use Rattle.csv_records.specs.Reading.{told_reading, read_at, reading_of, record_in};

use csv_field::{Span, Stop};

// The number of fields whose spans a reading keeps.
pub const KEPT: usize = 6;

// A whole record: the number of fields, the spans of the first six, the end before the line end, and the place of the next record.
#[derive(Clone, Copy, Debug, PartialEq, Eq, Hash)]
pub struct Record {
    pub count: usize,
    pub spans: [Span; KEPT],
    pub end: usize,
    pub next: usize,
}

// Why no record could be read: it is malformed, or only a byte past the limit could decide.
#[derive(Clone, Copy, Debug, PartialEq, Eq, Hash)]
pub enum Unread {
    Malformed,
    Limit,
}

// Reads the record at a place of the text, or none where the text ends there, and looks at no byte past the limit.
#[tactic(auto, using(crate::proofs::Limit::places_read), unfolding(crate::specs::Reading::reading_of))]
pub fn read_record(text: &[u8], at: usize, limit: usize) -> Result<Option<Record>, Unread>
    ensures { told_reading result ≡ reading_of (read_at text.now at limit) }
{
    if text.len() <= at {
        return Ok(None);
    }
    if limit < text.len() {
        return read_fields(&text[..limit], true, at);
    }
    read_fields(text, false, at)
}

// Reads field after field up to the end of the record, of which there always is one. `cut` says that the text goes on behind s, past the limit. The
// record comes in an `Option`, as read_record answers it, since it is large and would be moved once more.
fn read_fields(s: &[u8], cut: bool, at: usize) -> Result<Option<Record>, Unread>
    ensures { told_reading result ≡ reading_of (record_in s.now cut at) }
{
    let none = Span {
        start: 0,
        len: 0,
        doubled: false,
    };
    let mut spans = [none; KEPT];
    let mut count = 0;
    let mut i = at;
    // A `loop`: where the next field starts is known only once this one has been read.
    loop {
        let field = csv_field::field_at(s, cut, i);
        let end = field.end;
        let span = field.span;
        let stop = field.stop;
        if count < KEPT {
            spans[count] = span;
        }
        count += 1;
        let next = match stop {
            Stop::Comma => {
                i = end + 1;
                continue;
            }
            Stop::LineEnd => end + 2,
            Stop::TextEnd => end,
            Stop::Bad => return Err(Unread::Malformed),
            Stop::Cut => return Err(Unread::Limit),
        };
        return Ok(Some(Record {
            count,
            spans,
            end,
            next,
        }));
    }
}
