// Runs the examples of RFC 4180, section 2, and the reader's edge cases, and writes what the reader finds: a line for each record, with the
// number of fields, the first six spans, the record's end and the place after it. The file stdout holds the expected output.
//
// The cases stand on standard input, one on each line:
//
//     # WORDS        what the next case shows; nothing is run
//     N|TEXT|        reads the records of the text with the limit N, one digit
//     -|TEXT|        reads the records of the text with a limit that no text meets
//     =|TEXT|WORD|   says whether the first field of the text is the word
//
// In a text and in a word `%` and two hexadecimal digits (`0` to `9`, `A` to `F`) are one byte, and every other byte stands for itself. A line
// of another form is written out behind the word `unreadable`.
#![tactic(auto)]

ghost use Rattle.std.specs.Prelude.{◌≤◌, ◌<◌, length, IfSome};

use csv_field::Span;
use csv_records::{Record, Unread};
use std::io::{self, Write};

// The limit of a case that meets no limit.
const NO_LIMIT: usize = 1000;

// The most records that the program reads of a text.
const RECORDS: usize = 8;

// The most bytes of a text or a word.
const ROOM: usize = 64;

// The most bytes of input that are looked at.
const INPUT_ROOM: usize = 65536;

// The byte before a text, between a text and a word, and behind the last of them.
const BAR: u8 = b'|';

// Where the first bar of a line stands.
const FIRST_BAR: usize = 1;

// Where a text starts, behind the first bar.
const TEXT: usize = 2;

// Writes bytes.
fn put<W: Write>(out: &mut W, text: &[u8]) -> io::Result<()> {
    out.write_all(text)
}

// Writes two words, each with a number behind it.
fn put_pair<W: Write>(
    out: &mut W,
    word: &[u8],
    n: usize,
    second: &[u8],
    m: usize,
) -> io::Result<()> {
    put(out, word)?;
    write!(out, "{n}")?;
    put(out, second)?;
    write!(out, "{m}")
}

// Writes a span: its start, its length, `"` where two quotes stand in the span, and `-` where its content is empty.
fn put_span<W: Write>(out: &mut W, text: &[u8], span: Span) -> io::Result<()> {
    put_pair(out, b" ", span.start, b"+", span.len)?;
    if span.doubled {
        put(out, b"\"")?;
    }
    if csv_content::is_empty(text, span) {
        put(out, b"-")?;
    }
    Ok(())
}

// Writes a record: the number of its fields, the spans of the first six, its end and the place after it.
fn put_whole<W: Write>(out: &mut W, text: &[u8], record: &Record) -> io::Result<()> {
    put(out, b" ")?;
    write!(out, "{}", record.count)?;
    put(out, b" fields")?;
    for span in record.spans {
        put_span(out, text, span)?;
    }
    put_pair(out, b" end ", record.end, b" next ", record.next)?;
    put(out, b"\n")
}

// Writes one record and answers the place after the record, or the end of the text where no record stands there.
fn put_record<W: Write>(out: &mut W, text: &[u8], at: usize, limit: usize) -> io::Result<usize> {
    match csv_records::read_record(text, at, limit) {
        Ok(Some(record)) => {
            put_whole(out, text, &record)?;
            return Ok(record.next);
        }
        Ok(None) => put(out, b" end\n")?,
        Err(Unread::Malformed) => put(out, b" malformed\n")?,
        Err(Unread::Limit) => put(out, b" limit\n")?,
    }
    Ok(text.len())
}

// Writes the records of a text, each on a line.
fn put_records<W: Write>(out: &mut W, text: &[u8], limit: usize) -> io::Result<()> {
    let mut at = 0;
    for _ in 0..RECORDS {
        let next = put_record(out, text, at, limit)?;
        if next <= at {
            return Ok(());
        }
        at = next;
    }
    Ok(())
}

// Writes a text's length, its limit and its records.
fn show<W: Write>(out: &mut W, text: &[u8], limit: usize) -> io::Result<()> {
    put_pair(out, b"text of ", text.len(), b" limit ", limit)?;
    put(out, b"\n")?;
    put_records(out, text, limit)
}

// Writes whether the first field of a text is the word. Where no record can be read, its content is empty.
fn compare<W: Write>(out: &mut W, text: &[u8], word: &[u8]) -> io::Result<()> {
    let same = match csv_records::read_record(text, 0, text.len()) {
        Ok(Some(record)) => csv_content::is_word(text, record.spans[0], word),
        _ => word.is_empty(),
    };
    put(out, if same { b"same\n" } else { b"other\n" })
}

// The value of a hexadecimal digit. By hand, since it is one of a byte: std's `to_digit` is one of a character.
fn digit(b: u8) -> Option<u8>
    ensures { IfSome result (λ value. value < 16) }
{
    match b {
        b'0'..=b'9' => Some(b - b'0'),
        b'A'..=b'F' => Some(b - b'A' + 10),
        _ => None,
    }
}

// The byte at a place of a line, and 0 behind its end.
fn raw_at(line: &[u8], at: usize) -> u8 {
    line.get(at).copied().unwrap_or(0)
}

// The byte that two hexadecimal digits at a place of a line are.
fn coded_byte(line: &[u8], at: usize) -> Option<u8>
    requires { at ≤ length line.now }
{
    let high = digit(raw_at(line, at))?;
    let low = digit(raw_at(line, at + 1))?;
    Some(high * 16 + low)
}

// Decodes the byte at a place of a line: one byte of a text, and the place behind what stands for it. A bar is none, nor is `%` without two
// digits.
fn decode_byte(line: &[u8], at: usize) -> Option<(u8, usize)>
    requires { at < length line.now }
    ensures { IfSome result (λ one. at < one.1) }
{
    match line[at] {
        BAR => None,
        b'%' => Some((coded_byte(line, at + 1)?, at + 3)),
        byte => Some((byte, at + 1)),
    }
}

// The number of bytes of a text, and the place where decoding ended: at the bar behind the text, where the line is readable.
#[derive(Clone, Copy, Debug, PartialEq, Eq, Hash)]
struct Decoded {
    count: usize,
    end: usize,
}

// Decodes the text that starts at a place of a line, to the front of `bytes` and as far as there is room.
fn decode(line: &[u8], from: usize, bytes: &mut [u8]) -> Decoded
    ensures { result.count ≤ length bytes.new }
{
    let mut at = from;
    let mut count = 0;
    // A `while`: what stands for a byte is one byte long or three.
    while at < line.len() && count < bytes.len() {
        let Some((byte, next)) = decode_byte(line, at) else {
            break;
        };
        bytes[count] = byte;
        count += 1;
        at = next;
    }
    Decoded { count, end: at }
}

// The place behind a bar, or the end of the line where there is no bar.
fn behind_bar(line: &[u8], at: usize) -> usize {
    if at < line.len() && line[at] == BAR {
        return at + 1;
    }
    line.len()
}

// Whether a place of a line has the bar that closes it.
fn is_closed(line: &[u8], at: usize) -> bool {
    raw_at(line, at) == BAR && behind_bar(line, at) == line.len()
}

// Writes a line of another form.
fn put_unreadable<W: Write>(out: &mut W, line: &[u8]) -> io::Result<()> {
    put(out, b"unreadable: ")?;
    put(out, line)?;
    put(out, b"\n")
}

// Runs the line of a text.
fn run_text<W: Write>(out: &mut W, line: &[u8], limit: usize) -> io::Result<()> {
    let mut text = [0u8; ROOM];
    let decoded = decode(line, TEXT, &mut text);
    let n = decoded.count;
    if is_closed(line, decoded.end) {
        show(out, &text[..n], limit)
    } else {
        put_unreadable(out, line)
    }
}

// Runs the line of a text and a word.
fn run_word<W: Write>(out: &mut W, line: &[u8]) -> io::Result<()> {
    let mut text = [0u8; ROOM];
    let decoded = decode(line, TEXT, &mut text);
    let n = decoded.count;
    let mut word = [0u8; ROOM];
    let decoded_word = decode(line, behind_bar(line, decoded.end), &mut word);
    let m = decoded_word.count;
    if is_closed(line, decoded_word.end) {
        compare(out, &text[..n], &word[..m])
    } else {
        put_unreadable(out, line)
    }
}

// Runs one line.
fn run_line<W: Write>(out: &mut W, line: &[u8]) -> io::Result<()> {
    let kind = raw_at(line, 0);
    if kind == b'#' {
        return Ok(());
    }
    if raw_at(line, FIRST_BAR) != BAR {
        return put_unreadable(out, line);
    }
    match kind {
        b'-' => run_text(out, line, NO_LIMIT),
        b'0'..=b'9' => run_text(out, line, (kind - b'0') as usize),
        b'=' => run_word(out, line),
        _ => put_unreadable(out, line),
    }
}

// Runs each line of the input.
fn run_lines<W: Write>(out: &mut W, input: &[u8]) -> io::Result<()> {
    for line in input.split_inclusive(|b| *b == b'\n') {
        run_line(out, line.strip_suffix(b"\n").unwrap_or(line))?;
    }
    Ok(())
}

fn main(rt: HostRuntime) -> io::Result<()> {
    let mut input = [0u8; INPUT_ROOM];
    let n = streams::read_all(&mut rt.stdin(), &mut input)?;
    run_lines(&mut rt.stdout(), &input[..n])
}
