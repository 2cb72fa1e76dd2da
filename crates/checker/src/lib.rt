// The whole call on the text of a trace, the list of its races, and the report that the program `verdict` prints of a trace.
#![tactic(auto)]

ghost use Rattle.std.specs.Prelude.{◌+◌, ◌≤◌, ◌<◌, ◌≡◌, length, take};
ghost use Rattle.rows.specs.Rows.{rows_in};
ghost use Rattle.trace.specs.Questions.{check_trace, accepted};
ghost use Rattle.rows.specs.Questions.{first_no};
ghost use Rattle.print.specs.Puts.{lay};
ghost use Rattle.models.specs.Models.{model_number};
ghost use Rattle.races.specs.Answers.{judge_questions};
ghost use Rattle.checker.specs.Judging.{Decides};
ghost use Rattle.checker.specs.Listing.{Lists};
ghost use Rattle.checker.specs.Report.{pair, model_word, line_of, report_of, report_length, report_in};

use models::Model;
use races::Race;
use rows::refusal::Refused;
use trace::Call;

// The header word of a trace with header.
const WITH_HEADER: u32 = 1;

// The rows and the processes of the largest trace that the program takes.
const REPORT_ROWS: u32 = 128;

const REPORT_PROCESSES: u32 = 8;

// The bytes of the longest trace that the program takes.
const BYTES: usize = 8192;

// The bytes of the program's input buffer: one more than BYTES, so that the program sees whether a byte stands behind the limit.
pub const INPUT: usize = BYTES + 1;

// The numbers of a slice that holds the rows, and of a slice that holds their counts.
const ROW_SPACE: usize = 768;

const COUNT_SPACE: usize = 1024;

// A slice of this length has room for every report.
const ROOM: usize = 256;

// The row count of an accepted trace, and the first race of its rows, if they have one.
#[derive(Clone, Copy, Debug, PartialEq, Eq, Hash)]
pub struct Judged {
    pub rows: u32,
    pub race: Option<Race>,
}

// Checks a trace, puts its rows and their counts into the lent slices, and answers its verdict under the model.
pub fn judge(
    text: &[u8],
    call: Call,
    rows: &mut [u32],
    counts: &mut [u16],
) -> Result<Judged, Refused>
    ensures { Decides call.model call.process_limit
        (check_trace text.now call.header call.model call.row_limit call.process_limit call.byte_limit (length rows.old) (length counts.old))
        result rows.old rows.new counts.old counts.new }
{
    let n = trace::check_trace(text, call, rows, counts)?;
    let race = races::verdict(rows, n, call.process_limit, call.model, counts)?;
    Ok(Judged { rows: n, race })
}

// Checks a trace, puts its rows and their counts into the lent slices, puts every race under the model into the list, and answers how many there are.
// 23 comes last, where the list is too short for every race; it keeps the list, and the rows and counts that were read.
pub fn list_races(
    text: &[u8],
    call: Call,
    rows: &mut [u32],
    counts: &mut [u16],
    list: &mut [u32],
) -> Result<u32, Refused>
    ensures { Lists call.model call.process_limit
        (check_trace text.now call.header call.model call.row_limit call.process_limit call.byte_limit (length rows.old) (length counts.old))
        result rows.old rows.new counts.old counts.new list.old list.new }
{
    let n = trace::check_trace(text, call, rows, counts)?;
    races::list_races(rows, n, call.process_limit, call.model, counts, list)
}

// Puts what the program prints of a trace with header at the front of a slice, and answers the length. A slice of 256 bytes has room for
// every report; `report` leaves a shorter slice as it is and answers 0.
pub fn report(text: &[u8], out: &mut [u8]) -> usize
    ensures answer { result ≡ report_length text.now out.old }
    ensures left { out.new ≡ report_in text.now out.old }
    ensures front { (result ≤ length out.new) × (result ≡ length (take result out.new)) }
{
    if out.len() < ROOM {
        return 0;
    }
    let mut row_space = [0u32; ROW_SPACE];
    let rows: &mut [u32] = &mut row_space;
    let mut count_space = [0u16; COUNT_SPACE];
    let counts: &mut [u16] = &mut count_space;
    let call = Call {
        header: WITH_HEADER,
        model: Model::Posix.number(),
        row_limit: REPORT_ROWS,
        process_limit: REPORT_PROCESSES,
        byte_limit: BYTES,
    };
    match trace::check_trace(text, call, rows, counts) {
        Ok(n) => put_models(out, rows, n, counts),
        Err(refused) => {
            let at = print::put(out, 0, b"refused,");
            put_pair(out, at, refused.refusal.number(), refused.place)
        }
    }
}

// Puts the report of what the program has read: the first n bytes of its input buffer, or all bytes where n is larger. The buffer comes whole, with
// the count beside it, since the program reads into one of a fixed size.
pub fn report_input(input: &[u8; INPUT], n: usize, out: &mut [u8]) -> usize
    ensures answer { result ≡ report_length (take n input.now) out.old }
    ensures left { out.new ≡ report_in (take n input.now) out.old }
    ensures front { (result ≤ length out.new) × (result ≡ length (take result out.new)) }
{
    let text: &[u8] = input;
    if n < text.len() {
        return report(&text[..n], out);
    }
    report(text, out)
}

// Puts the heading and a line for each model.
fn put_models(out: &mut [u8], rows: &[u32], n: u32, counts: &mut [u16]) -> usize
    requires report_room { 256 ≤ length out.old }
    requires asked { first_no (judge_questions n 8 0 rows.now (length counts.old)) ≡ 0 }
    ensures answer { result ≡ length (report_of (accepted (rows_in n rows.now))) }
    ensures out_after { out.new ≡ lay out.old 0 (report_of (accepted (rows_in n rows.now))) }
{
    let mut at = print::put(out, 0, b"model,verdict,earlier,later\r\n");
    for model in Model::ALL {
        at = put_model(out, at, model, rows, n, counts);
    }
    at
}

// The word that stands for a model in the report.
fn word(model: Model) -> &'static [u8]
    ensures { result.now ≡ model_word model }
{
    match model {
        Model::Posix => b"posix",
        Model::Commit => b"commit",
        Model::Session => b"session",
        Model::MpiIo => b"mpiio",
    }
}

// Puts a model's line at a place, and answers the place behind the line.
fn put_model(
    out: &mut [u8],
    at: usize,
    model: Model,
    rows: &[u32],
    n: u32,
    counts: &mut [u16],
) -> usize
    requires line_room { at + 40 ≤ length out.old }
    requires asked { first_no (judge_questions n 8 (model_number model) rows.now (length counts.old)) ≡ 0 }
    ensures answer { result ≡ at + length (line_of (rows_in n rows.now) model) }
    ensures out_after { out.new ≡ lay out.old at (line_of (rows_in n rows.now) model) }
{
    let behind = print::put(out, at, word(model));
    match races::verdict(rows, n, REPORT_PROCESSES, model.number(), counts) {
        Ok(None) => print::put(out, behind, b",free,,\r\n"),
        Ok(Some(race)) => {
            let words = print::put(out, behind, b",race,");
            put_pair(out, words, race.earlier, race.later)
        }
        Err(_) => behind,
    }
}

// Puts two numbers and the end of a line at a place, and answers the place behind them.
fn put_pair(out: &mut [u8], at: usize, a: u32, b: u32) -> usize
    requires { at + 23 ≤ length out.old }
    ensures answer { result ≡ at + length (pair a b) }
    ensures out_after { out.new ≡ lay out.old at (pair a b) }
{
    let first = print::put_number(out, at, a);
    let comma = print::put(out, first, b",");
    let second = print::put_number(out, comma, b);
    print::put(out, second, b"\r\n")
}
