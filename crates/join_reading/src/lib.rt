// Reads one file of a join by itself: puts the questions 1 to 11 to it, and leaves its rows in a slice that the caller lends.
#![tactic(auto)]

ghost use Rattle.std.specs.Prelude.{◌≡◌, ◌≤◌, ◌*◌, length, replicate, IfErr};
ghost use Rattle.rows.specs.Limits.{ROWS, FIELDS};
ghost use Rattle.rows.specs.Questions.{first_no};
ghost use Rattle.rows.specs.Refusals.{Asks};
ghost use Rattle.trace.specs.Questions.{told, checked_of, Holds};
ghost use Rattle.join_meaning.specs.Files.{read_file};
ghost use Rattle.join_reading.specs.Reading.{file_questions, check_file, ReadsFile};

use rows::refusal::{Refusal, Refused};
use trace::{Call, Unasked};

// A model's number, as a call has it, for questions that are put to a call without a model.
const SOME_MODEL: u32 = 0;

// Reads one file of a join by itself into the lent rows, six numbers each: answers its row count. The questions 1 to 3 come first, and their
// refusals keep the slice; any other refusal leaves it filled with 0, and an accepted file leaves its rows and 0 behind them.
pub fn read_file(
    text: &[u8],
    header: u32,
    row_limit: u32,
    process_limit: u32,
    rows: &mut [u32],
) -> Result<u32, Refused>
    ensures { ReadsFile
        (check_file text.now header row_limit process_limit (length rows.old))
        result rows.old rows.new }
{
    let call = Call {
        header,
        model: SOME_MODEL,
        row_limit,
        process_limit,
        byte_limit: text.len(),
    };
    ask_file(call, rows.len())?;
    let n = read_text(text, call, rows)?;
    rows[n as usize * rows::FIELDS..].fill(0);
    Ok(n)
}

// Puts the questions 1 to 3 to a file's call, as to a trace of some model whose counts just fit.
fn ask_file(call: Call, rows_len: usize) -> Result<(), Refusal>
    requires { call.model ≡ 0 }
    ensures { Asks (first_no (file_questions call.header call.row_limit call.process_limit rows_len)) result }
{
    let counts_len = call.row_limit as usize * call.process_limit as usize;
    trace::ask_call(call, rows_len, counts_len)
}

// Puts the questions 4 to 11 to a file's text, and nothing to a row behind them. A refusal leaves the rows filled with 0.
fn read_text(text: &[u8], call: Call, rows: &mut [u32]) -> Result<u32, Refused>
    requires few { call.row_limit ≤ ROWS }
    requires room { FIELDS * call.row_limit ≤ length rows.old }
    requires whole { call.byte_limit ≡ length text.now }
    ensures answer { told result ≡ checked_of (read_file call.header call.row_limit call.process_limit text.now) }
    ensures held { Holds (read_file call.header call.row_limit call.process_limit text.now) rows.old rows.new }
    ensures cleared { IfErr result (λ e. rows.new ≡ replicate (length rows.old) 0) }
{
    trace::read_text(text, call, &mut Unasked, rows)
}
