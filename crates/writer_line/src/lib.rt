// A row as a line of plain text: how long the line is, and the line put into a lent slice.
#![tactic(auto)]

ghost use Rattle.std.specs.Prelude.{◌≡◌, [], ◌∷◌, ◌+◌, ◌≤◌, length, get_or};
ghost use Rattle.csv_field.specs.FieldGrammar.{COMMA};
ghost use Rattle.print.specs.Puts.{lay, put_in, put_end};
ghost use Rattle.trace_fields.specs.Rows.{kind_words};
ghost use Rattle.writer_line.specs.Lines.{number_field, record_of};

use rows::Row;
use rows::kind::Kind;

// The bytes of a record besides its fields: five commas, CR and LF.
const MARKS: usize = 7;

// No record has more bytes: five numbers of ten digits, a word of seven letters, and the marks.
const LONGEST: usize = 64;

// Answers how many bytes a row's line has, its line end included.
pub fn record_length(row: Row) -> usize
    ensures { result ≡ length (record_of row) }
{
    let used = trace_fields::used_by(row.kind);
    let process = print::width_of(row.process);
    let word = word_of(row.kind).len();
    let file = field_length(row.file, used.file);
    let offset = field_length(row.offset, used.range);
    let length = field_length(row.length, used.range);
    let message = field_length(row.message, used.message);
    MARKS + process + word + file + offset + length + message
}

// The word that stands for a kind's number in a trace, and no bytes for a number that is no kind's.
fn word_of(kind: u32) -> &'static [u8]
    ensures word { result.now ≡ get_or kind_words «kind» [] }
    ensures few { length result.now ≤ 7 }
{
    match Kind::try_from(kind) {
        Ok(kind) => trace_fields::word(kind),
        Err(_) => b"",
    }
}

// Answers how many bytes a number's field has: none where the field is not used.
#[tactic(auto, using(print::proofs::Laying::number_lengths))]
fn field_length(n: u32, used: bool) -> usize
    ensures length { result ≡ length (number_field used n) }
    ensures few { result ≤ 10 }
{
    if used { print::width_of(n) } else { 0 }
}

// Puts a row's line and its line end at the front of a slice and answers how many bytes these are. Where there is no room, nothing is put, and
// the answer is 0.
pub fn put_record(out: &mut [u8], row: Row) -> usize
    ensures answer { result ≡ put_end out.old 0 (record_of row) }
    ensures left { out.new ≡ put_in out.old 0 (record_of row) }
{
    if out.len() < LONGEST {
        return put_near_end(out, row);
    }
    put_parts(out, row)
}

// Puts a row's line and its line end as put_record does, and asks for the room that this line takes.
#[tactic(auto, unfolding(print::specs::Puts::put_in, print::specs::Puts::put_end))]
fn put_near_end(out: &mut [u8], row: Row) -> usize
    ensures answer { result ≡ put_end out.old 0 (record_of row) }
    ensures left { out.new ≡ put_in out.old 0 (record_of row) }
{
    if out.len() < record_length(row) {
        return 0;
    }
    put_parts(out, row)
}

// Puts a row's line and its line end where there is room for them, one part behind the other, and answers how many bytes these are.
fn put_parts(out: &mut [u8], row: Row) -> usize
    requires { length (record_of row) ≤ length out.old }
    ensures answer { result ≡ length (record_of row) }
    ensures left { out.new ≡ lay out.old 0 (record_of row) }
{
    let used = trace_fields::used_by(row.kind);
    let at = print::put_number(out, 0, row.process);
    let at = put_word(out, at, row.kind);
    let at = put_field(out, at, row.file, used.file);
    let at = put_field(out, at, row.offset, used.range);
    let at = put_field(out, at, row.length, used.range);
    let at = put_field(out, at, row.message, used.message);
    print::put(out, at, b"\r\n")
}

// Puts a comma and a kind's word.
fn put_word(out: &mut [u8], at: usize, kind: u32) -> usize
    requires { at + length (COMMA ∷ get_or kind_words «kind» []) ≤ length out.old }
    ensures answer { result ≡ at + length (COMMA ∷ get_or kind_words «kind» []) }
    ensures left { out.new ≡ lay out.old at (COMMA ∷ get_or kind_words «kind» []) }
{
    let word = print::put(out, at, b",");
    print::put(out, word, word_of(kind))
}

// Puts a comma and a number's field, which is empty where it is not used.
fn put_field(out: &mut [u8], at: usize, n: u32, used: bool) -> usize
    requires { at + length (COMMA ∷ number_field used n) ≤ length out.old }
    ensures answer { result ≡ at + length (COMMA ∷ number_field used n) }
    ensures left { out.new ≡ lay out.old at (COMMA ∷ number_field used n) }
{
    let digits = print::put(out, at, b",");
    if used {
        print::put_number(out, digits, n)
    } else {
        digits
    }
}
