// Reads a trace, rows of file operations in RFC 4180 text, into slices that the caller lends, and puts the questions to it: 1 to 12, 21 and 22.
#![tactic(auto)]

mod questions;
mod reading;

ghost use Rattle.std.specs.Prelude.{◌≡◌, ◌≤◌, ◌*◌, length};
ghost use Rattle.csv_records.specs.Reading.{records};
ghost use Rattle.trace_numbers.specs.Numbers.{told_row};
ghost use Rattle.trace.specs.Questions.{call_questions, record_questions, read_records, read_trace, check_trace, told, checked_of, Holds, Leaves};
ghost use Rattle.rows.specs.Questions.{first_no};
ghost use Rattle.rows.specs.Refusals.{Asks};
ghost use Rattle.trace.specs.Reads.{fields_of, headed, judged_by, judge_from};
ghost use Rattle.rows.specs.Limits.{ROWS, FIELDS, PROCESSES};

use csv_records::Record;
use messages::MessageTable;
pub use questions::{RowQuestions, Unasked};
pub use reading::read_text;
use rows::Row;
use rows::refusal::{Refusal, Refused};

// The numbers of a call: the header word, the model, and the limits of rows, processes and bytes. Each is a number, since the questions 1 to 3 ask
// whether it is in its range.
#[derive(Clone, Copy, Debug, PartialEq, Eq, Hash)]
pub struct Call {
    pub header: u32,
    pub model: u32,
    pub row_limit: u32,
    pub process_limit: u32,
    pub byte_limit: usize,
}

// Reads a trace into the lent rows, six numbers each, and clears the lent counts: answers its row count. The questions 1 to 3 come first, and
// their refusals keep both slices; any other refusal leaves both filled with 0, and an accepted trace leaves its rows and 0 behind them.
pub fn check_trace(
    text: &[u8],
    call: Call,
    rows: &mut [u32],
    counts: &mut [u16],
) -> Result<u32, Refused>
    ensures { Leaves
        (check_trace text.now call.header call.model call.row_limit call.process_limit call.byte_limit (length rows.old) (length counts.old))
        result rows.old rows.new counts.old counts.new }
{
    ask_call(call, rows.len(), counts.len())?;
    counts.fill(0);
    match read_trace(text, call, rows) {
        Ok(n) => {
            rows[n as usize * rows::FIELDS..].fill(0);
            Ok(n)
        }
        Err(refused) => {
            rows.fill(0);
            Err(refused)
        }
    }
}

// Puts the questions 1 to 3 to a call.
#[tactic(auto, unfolding(crate::specs::Questions::call_questions, rows::specs::Questions::first_no))]
pub fn ask_call(call: Call, rows_len: usize, counts_len: usize) -> Result<(), Refusal>
    ensures { Asks (first_no (call_questions call.header call.model call.row_limit call.process_limit rows_len counts_len)) result }
{
    if (rows_len as u64) < call.row_limit as u64 * rows::FIELDS as u64 {
        return Err(Refusal::ShortSlice);
    }
    if (counts_len as u64) < call.row_limit as u64 * call.process_limit as u64 {
        return Err(Refusal::ShortSlice);
    }
    if rows::MODELS <= call.model {
        return Err(Refusal::Limits);
    }
    if call.row_limit < 1 {
        return Err(Refusal::Limits);
    }
    if rows::ROWS < call.row_limit {
        return Err(Refusal::Limits);
    }
    if !rows::is_process_limit(call.process_limit) {
        return Err(Refusal::Limits);
    }
    if 1 < call.header {
        return Err(Refusal::HeaderWord);
    }
    Ok(())
}

// Puts the questions from 4 on to a text: those of its records, and 22 once every record has passed.
fn read_trace(text: &[u8], call: Call, rows: &mut [u32]) -> Result<u32, Refused>
    requires few { call.row_limit ≤ ROWS }
    requires room { FIELDS * call.row_limit ≤ length rows.old }
    requires processes { call.process_limit ≤ PROCESSES }
    ensures answer { told result ≡ checked_of (read_trace call.header call.row_limit call.process_limit (records text.now call.byte_limit)) }
    ensures held { Holds (read_trace call.header call.row_limit call.process_limit (records text.now call.byte_limit)) rows.old rows.new }
{
    let n = read_records(text, call, rows)?;
    match barriers::place_of(rows, n) {
        None => Ok(n),
        Some(place) => Err(Refusal::BarrierOrder.at(place)),
    }
}

// Puts the questions of the records to a text. Its header comes first, so that a text that is refused there needs no table.
fn read_records(text: &[u8], call: Call, rows: &mut [u32]) -> Result<u32, Refused>
    requires few { call.row_limit ≤ ROWS }
    requires room { FIELDS * call.row_limit ≤ length rows.old }
    requires processes { call.process_limit ≤ PROCESSES }
    ensures answer { told result ≡ checked_of (read_records call.header call.row_limit call.process_limit (records text.now call.byte_limit)) }
    ensures held { Holds (read_records call.header call.row_limit call.process_limit (records text.now call.byte_limit)) rows.old rows.new }
{
    let start = reading::rows_start(text, call)?;
    read_by_table(text, start, call, rows)
}

// Puts the questions of the records from a place of the text on, those of a row's message by a table. A call of its own: the table's 128 KB of the stack
// are given back before those of question 22 are taken.
#[inline(never)]
fn read_by_table(text: &[u8], start: usize, call: Call, rows: &mut [u32]) -> Result<u32, Refused>
    requires few { call.row_limit ≤ ROWS }
    requires room { FIELDS * call.row_limit ≤ length rows.old }
    requires processes { call.process_limit ≤ PROCESSES }
    ensures answer { told result ≡ checked_of (judge_from call.row_limit call.process_limit text.now call.byte_limit start) }
    ensures held { Holds (judge_from call.row_limit call.process_limit text.now call.byte_limit start) rows.old rows.new }
{
    let mut table = MessageTable::new();
    reading::read_rows(text, start, call, &mut table, rows)
}

// Whether the record has the six names of the header in order: question 5.
#[tactic(auto, using(crate::proofs::Asking::by_names))]
pub fn is_header(text: &[u8], record: &Record) -> bool
    ensures { result ≡ headed «record».now.count (fields_of text.now «record».now.spans) }
{
    record.count == rows::FIELDS
        && csv_content::is_word(text, record.spans[rows::PROCESS_AT], b"process")
        && csv_content::is_word(text, record.spans[rows::KIND_AT], b"kind")
        && csv_content::is_word(text, record.spans[rows::FILE_AT], b"file")
        && csv_content::is_word(text, record.spans[rows::OFFSET_AT], b"offset")
        && csv_content::is_word(text, record.spans[rows::LENGTH_AT], b"length")
        && csv_content::is_word(text, record.spans[rows::MESSAGE_AT], b"message")
}

// Puts the questions 6 to 11 to a record behind n rows: answers its row.
#[tactic(auto, unfolding(crate::specs::Questions::record_questions, trace_fields::specs::Reads::judged_fields, rows::specs::Questions::first_no))]
pub fn judge_record(text: &[u8], record: &Record, n: usize, call: Call) -> Result<Row, Refusal>
    ensures { told_row result ≡ judged_by (first_no (record_questions call.row_limit call.process_limit n «record».now.count (fields_of text.now «record».now.spans))) (fields_of text.now «record».now.spans) }
{
    if call.row_limit as usize <= n {
        return Err(Refusal::RowLimit);
    }
    if record.count != rows::FIELDS {
        return Err(Refusal::SixFields);
    }
    trace_fields::judge_fields(text, record.spans, call.process_limit)
}
