// Writes rows back as a trace: plain RFC 4180 text, with or without the header, into a lent slice from a place that the caller names.
#![tactic(auto)]

mod asking;
mod putting;
mod sizing;

ghost use Rattle.std.specs.Prelude.{◌≡◌, length};
ghost use Rattle.rows.specs.Questions.{first_no};
ghost use Rattle.rows.specs.Refusals.{Asks};
ghost use Rattle.writer.specs.Writing.{write_questions, write_trace, Writes};

use messages::MessageTable;
use rows::refusal::{Refusal, Refused};

// Writes the text of the first n rows from the place on. The questions 1 to 3 come first, then row by row those from 8 on, then 22 of all rows,
// and 18 last: does the text fit behind the place? Every byte before the place and behind the text keeps its value, and a refusal writes nothing.
// The rows come as a slice and a count, as C lends them, and the header word as a number, which question 3 asks.
pub fn write_trace(
    rows: &[u32],
    n: u32,
    header: u32,
    process_limit: u32,
    out: &mut [u8],
    place: usize,
) -> Result<usize, Refused>
    ensures { Writes (write_trace rows.now n header process_limit (length out.old) place) result place out.old out.new }
{
    // The table stands before the first answer, so that the compiler makes its large frame at the function's entry (docs/DECISIONS.md, Forms).
    let mut table = MessageTable::new();
    ask_call(rows.len(), n, header, process_limit)?;
    asking::ask_rows(&mut table, rows, n, process_limit)?;
    if let Some(row) = barriers::place_of(rows, n) {
        return Err(Refusal::BarrierOrder.at(row));
    }
    if !sizing::text_fits(out.len(), place, rows, n as usize, header) {
        return Err(Refusal::TextSpace.at(0));
    }
    let at = putting::put_header(out, place, header);
    let end = putting::put_rows(out, at, rows, n as usize);
    Ok(end - place)
}

// Puts the questions 1 to 3 to a call.
#[tactic(auto, unfolding(crate::specs::Writing::write_questions, rows::specs::Questions::first_no))]
fn ask_call(rows_len: usize, n: u32, header: u32, process_limit: u32) -> Result<(), Refusal>
    ensures { Asks (first_no (write_questions n header process_limit rows_len)) result }
{
    if (rows_len as u64) < n as u64 * rows::FIELDS as u64 {
        return Err(Refusal::ShortSlice);
    }
    if !rows::is_process_limit(process_limit) || rows::ROWS < n {
        return Err(Refusal::Limits);
    }
    if 1 < header {
        return Err(Refusal::HeaderWord);
    }
    Ok(())
}
