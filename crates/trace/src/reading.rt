// Reads the header and the rows of a text into a slice of six numbers for each row, and puts the questions from 4 on to them: those up to 11,
// and what is asked of a row behind them.
ghost use Rattle.std.specs.Prelude.{◌≡◌, ◌≢◌, ◌*◌, ◌≤◌, [], length, IfOk, IfSome, MatchResult};
ghost use Rattle.csv_records.specs.Reading.{read_at, records};
ghost use Rattle.rows.specs.Limits.{ROWS, FIELDS};
ghost use Rattle.rows.specs.Questions.{first_no};
ghost use Rattle.rows.specs.Refusals.{Asks, refused_at};
ghost use Rattle.trace.specs.Questions.{told, checked_of, Holds};
ghost use Rattle.trace.specs.Reader.{judge_asked, rows_asked, read_by, read_asked, room_questions, text_left, state_asked, rows_state, state_by, state_read, header_no, rows_start, told_step, step_of, state_of};

use crate::questions::RowQuestions;
use crate::{Call, is_header, judge_record};
use csv_records::Unread;
use rows::refusal::{Refusal, Refused};
use rows::{FIELDS, ROWS, Row};

// A row, and where the record behind it starts.
#[derive(Clone, Copy, Debug, PartialEq, Eq, Hash)]
struct NextRow {
    row: Row,
    next: usize,
}

// Reads a text under a header word into the lent rows, six numbers each: the rows stand behind a header unless the word is 0. Of the questions 1 to 3
// it asks whether the slice has room for as many rows as the limit says, and whether that limit is within its range; their refusals keep the slice. Any
// other refusal leaves it filled with 0, and an accepted text keeps what stands behind its rows. The questions note each row that 6 to 11 let pass, up
// to the first refusal.
#[tactic(auto, unfolding(crate::specs::Reader::read_asked, crate::specs::Reader::state_read, rows::specs::Questions::first_no))]
pub fn read_text<Q: RowQuestions>(
    text: &[u8],
    call: Call,
    questions: &mut Q,
    rows: &mut [u32],
) -> Result<u32, Refused>
    ensures answer { told result ≡ checked_of (read_asked (judge_asked Q.asked Q.noted call.row_limit call.process_limit questions.old []) call.header call.row_limit (length rows.old) (records text.now call.byte_limit)) }
    ensures held { Holds (read_asked (judge_asked Q.asked Q.noted call.row_limit call.process_limit questions.old []) call.header call.row_limit (length rows.old) (records text.now call.byte_limit)) rows.old rows.new }
    ensures kept { first_no (room_questions call.row_limit (length rows.old)) ≢ 0 → rows.new ≡ rows.old }
    ensures left { rows.new ≡ text_left (first_no (room_questions call.row_limit (length rows.old))) (read_asked (judge_asked Q.asked Q.noted call.row_limit call.process_limit questions.old []) call.header call.row_limit (length rows.old) (records text.now call.byte_limit)) rows.old }
    ensures state { questions.new ≡ state_read (state_asked Q.asked Q.noted call.row_limit call.process_limit questions.old []) questions.old call.header call.row_limit (length rows.old) (records text.now call.byte_limit) }
{
    if rows.len() / FIELDS < call.row_limit as usize {
        return Err(Refusal::ShortSlice.into());
    }
    if ROWS < call.row_limit {
        return Err(Refusal::Limits.into());
    }
    match read_header_and_rows(text, call, questions, rows) {
        Ok(n) => Ok(n),
        Err(refused) => {
            rows.fill(0);
            Err(refused)
        }
    }
}

// Reads a text under a header word into rows that have room for it.
fn read_header_and_rows<Q: RowQuestions>(
    text: &[u8],
    call: Call,
    questions: &mut Q,
    rows: &mut [u32],
) -> Result<u32, Refused>
    requires few { call.row_limit ≤ ROWS }
    requires room { FIELDS * call.row_limit ≤ length rows.old }
    ensures answer { told result ≡ checked_of (read_by (judge_asked Q.asked Q.noted call.row_limit call.process_limit questions.old []) call.header (records text.now call.byte_limit)) }
    ensures held { Holds (read_by (judge_asked Q.asked Q.noted call.row_limit call.process_limit questions.old []) call.header (records text.now call.byte_limit)) rows.old rows.new }
    ensures state { questions.new ≡ state_by (state_asked Q.asked Q.noted call.row_limit call.process_limit questions.old []) questions.old call.header (records text.now call.byte_limit) }
{
    let start = rows_start(text, call)?;
    read_rows(text, start, call, questions, rows)
}

// Where the rows of a text start: at once under header word 0, and behind the header under any other.
pub(crate) fn rows_start(text: &[u8], call: Call) -> Result<usize, Refusal>
    ensures asked { Asks (header_no call.header text.now (read_at text.now 0 call.byte_limit)) result }
    ensures start { IfOk result (λ start. start ≡ rows_start call.header (read_at text.now 0 call.byte_limit)) }
{
    if call.header == 0 {
        return Ok(0);
    }
    match csv_records::read_record(text, 0, call.byte_limit) {
        Ok(Some(record)) => {
            if is_header(text, &record) {
                Ok(record.next)
            } else {
                Err(Refusal::Header)
            }
        }
        Ok(None) => Err(Refusal::Header),
        Err(Unread::Malformed) => Err(Refusal::Malformed),
        Err(Unread::Limit) => Err(Refusal::Header),
    }
}

// Reads rows from a place of the text on, up to the end of the text or the first No.
pub(crate) fn read_rows<Q: RowQuestions>(
    text: &[u8],
    start: usize,
    call: Call,
    questions: &mut Q,
    rows: &mut [u32],
) -> Result<u32, Refused>
    requires few { call.row_limit ≤ ROWS }
    requires room { FIELDS * call.row_limit ≤ length rows.old }
    ensures answer { told result ≡ checked_of (rows_asked Q.asked Q.noted call.row_limit call.process_limit text.now call.byte_limit questions.old start) }
    ensures held { Holds (rows_asked Q.asked Q.noted call.row_limit call.process_limit text.now call.byte_limit questions.old start) rows.old rows.new }
    ensures state { questions.new ≡ rows_state Q.asked Q.noted call.row_limit call.process_limit text.now call.byte_limit questions.old start }
{
    let mut at = start;
    let mut n = 0;
    // No `for`: where the record behind starts is known only once a record has been read.
    while let Some(found) = placed(next_row(text, at, n, call, questions), n + 1)? {
        rows::put_row(rows, n as usize, found.row);
        n += 1;
        at = found.next;
    }
    Ok(n)
}

// An answer with the place of its record in its refusal.
fn placed(answer: Result<Option<NextRow>, Refusal>, place: u32) -> Result<Option<NextRow>, Refused>
    ensures { MatchResult answer (λ found. result ≡ Ok found) (λ refusal. result ≡ Err (refused_at refusal place)) }
{
    answer.map_err(|refusal| refusal.at(place))
}

// Puts the questions of the record at a place behind n rows: answers its row, or none at the end of the text.
fn next_row<Q: RowQuestions>(
    text: &[u8],
    at: usize,
    n: u32,
    call: Call,
    questions: &mut Q,
) -> Result<Option<NextRow>, Refusal>
    ensures answer { told_step result ≡ step_of (Q.asked questions.old) call.row_limit call.process_limit n text.now (read_at text.now at call.byte_limit) }
    ensures left { IfOk result (λ found. IfSome found (λ r. questions.new ≡ Q.noted questions.old r.row)) }
    ensures state { questions.new ≡ state_of Q.noted call.row_limit call.process_limit n questions.old text.now (read_at text.now at call.byte_limit) }
{
    let record = match csv_records::read_record(text, at, call.byte_limit) {
        Ok(Some(record)) => record,
        Ok(None) => return Ok(None),
        Err(Unread::Malformed) => return Err(Refusal::Malformed),
        Err(Unread::Limit) => return Err(Refusal::RowLimit),
    };
    let row = judge_record(text, &record, n as usize, call)?;
    questions.ask(row)?;
    Ok(Some(NextRow {
        row,
        next: record.next,
    }))
}
