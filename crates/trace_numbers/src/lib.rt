// The numbers of one record's fields: question 10, and the row that the numbers make.
#![tactic(auto)]

ghost use Rattle.std.specs.Prelude.{◌≡◌, ◌≤◌};
ghost use Rattle.csv_content.specs.Content.{content_of};
ghost use Rattle.trace_numbers.specs.Numbers.{starts_plain, number_below, OFFSETS, number_where, fields_of, told_number, Ranged, told_row, read_numbers};

use csv_field::Span;
use rows::Row;
use rows::refusal::Refusal;

// The bound of a file's number.
const FILES: u64 = rows::FILES as u64;

// The bound of an offset and of a length, one more than the largest.
const OFFSETS: u64 = rows::OFFSET_MAX as u64 + 1;

// The bound of a message.
const MESSAGES: u64 = rows::MESSAGES as u64;

// The fields that a kind uses besides process and kind; offset and length go together.
#[derive(Clone, Copy, Debug, PartialEq, Eq, Hash)]
pub struct Used {
    pub file: bool,
    pub range: bool,
    pub message: bool,
}

// Whether bytes start as a plain number does: at least one byte, and no leading zero.
#[tactic(auto, using(crate::proofs::Numbers::plain_starts))]
fn starts_plain(s: &[u8]) -> bool
    ensures { result ≡ starts_plain s.now }
{
    match s {
        [] => false,
        [first, rest @ ..] => *first != b'0' || rest.is_empty(),
    }
}

// Reads a plain number below a bound, or none where the bytes are no such number.
fn digits(s: &[u8], below: u64) -> Option<u32>
    requires { below ≤ OFFSETS }
    ensures { told_number result ≡ number_below below s.now }
{
    if !starts_plain(s) {
        return None;
    }
    let mut v: u64 = 0;
    for b in s {
        if !b.is_ascii_digit() {
            return None;
        }
        v = v * 10 + (*b - b'0') as u64;
        if below <= v {
            return None;
        }
    }
    Some(v as u32)
}

// Reads the number of a used field; the number of any other is 0.
fn number_in(text: &[u8], span: Span, below: u64, used: bool) -> Result<u32, Refusal>
    requires { below ≤ OFFSETS }
    ensures { Ranged (number_where used below (content_of text.now span)) result }
{
    if !used {
        return Ok(0);
    }
    digits(csv_content::raw(text, span), below).ok_or(Refusal::Range)
}

// Puts question 10 to a record of six fields and makes the row of its kind and numbers. The number of a field that is not used is 0.
pub fn read_numbers(
    text: &[u8],
    spans: [Span; 6],
    kind: u32,
    used: Used,
    process_limit: u32,
) -> Result<Row, Refusal>
    ensures { told_row result ≡ read_numbers «kind» used process_limit (fields_of text.now spans) }
{
    Ok(Row {
        process: number_in(text, spans[rows::PROCESS_AT], process_limit as u64, true)?,
        kind,
        file: number_in(text, spans[rows::FILE_AT], FILES, used.file)?,
        offset: number_in(text, spans[rows::OFFSET_AT], OFFSETS, used.range)?,
        length: number_in(text, spans[rows::LENGTH_AT], OFFSETS, used.range)?,
        message: number_in(text, spans[rows::MESSAGE_AT], MESSAGES, used.message)?,
    })
}
