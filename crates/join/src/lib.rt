// Joins the traces of two controllers of one shelf into one trace, and puts every question to it.
#![tactic(auto)]

pub mod choosing;
mod joining;
mod sharing;

ghost use Rattle.std.specs.Prelude.{◌≡◌, length, None, Some, IfErr};
ghost use Rattle.rows.specs.Questions.{first_no};
ghost use Rattle.rows.specs.Refusals.{Asks};
ghost use Rattle.join.specs.Answers.{told_joined};
ghost use Rattle.join_meaning.specs.Joining.{join_questions, join_files, join_traces};
ghost use Rattle.join_reading.specs.Reading.{check_file};
ghost use Rattle.join.specs.Leaving.{joined_of, Passed, HeldOver, Leaves, TellsFile, one_left};

use barriers::participants;
use choosing::File;
use joining::PART;
use participants::FLAGS;
use rows::refusal::{Refusal, Refused};
use trace::Call;

// The numbers of a join: the header words of both files, the model, and the limits of rows and processes. Each is a number, of which one of the
// questions 1 to 3 asks whether it is in its range.
#[derive(Clone, Copy, Debug, PartialEq, Eq, Hash)]
pub struct JoinCall {
    pub first_header: u32,
    pub second_header: u32,
    pub model: u32,
    pub row_limit: u32,
    pub process_limit: u32,
}

// A refusal of a join, the place at which it came, 0 for none, and the file whose place it is; without a file it is a place of the join.
#[derive(Clone, Copy, Debug, PartialEq, Eq, Hash)]
pub struct JoinRefused {
    pub refusal: Refusal,
    pub place: u32,
    pub file: Option<File>,
}

impl From<Refusal> for JoinRefused {
    ghost from_gives = { λ refusal refused. refused ≡ record { refusal = refusal; place = 0; file = None } };

    fn from(refusal: Refusal) -> JoinRefused {
        JoinRefused::from(refusal.at(0))
    }
}

impl From<Refused> for JoinRefused {
    ghost from_gives = { λ refused joined. joined ≡ record { refusal = refused.refusal; place = refused.place; file = None } };

    fn from(refused: Refused) -> JoinRefused {
        JoinRefused {
            refusal: refused.refusal,
            place: refused.place,
            file: None,
        }
    }
}

// Joins two files into the lent rows, six numbers each, puts for each row where its record stands into the lent parts, three numbers each (the file, and
// the record's start and end there), and clears the lent counts. The questions 1 to 3 come first, and their refusals keep all slices; any other refusal leaves
// them filled with 0, and an accepted join leaves 0 behind its rows and parts.
pub fn join_rows<'a>(
    first: &'a [u8],
    second: &'a [u8],
    call: JoinCall,
    rows: &mut [u32],
    counts: &mut [u16],
    parts: &mut [u64],
) -> Result<u32, JoinRefused>
    ensures { Leaves
        (join_traces first.now second.now call.first_header call.second_header call.model call.row_limit call.process_limit
        (length rows.old) (length counts.old) (length parts.old))
        result rows.old rows.new counts.old counts.new parts.old parts.new }
{
    ask_join(call, rows.len(), counts.len(), parts.len())?;
    counts.fill(0);
    match join_files(first, second, call, rows, parts) {
        Ok(n) => {
            rows[n as usize * rows::FIELDS..].fill(0);
            parts[n as usize * PART..].fill(0);
            Ok(n)
        }
        Err(refused) => {
            rows.fill(0);
            parts.fill(0);
            Err(refused)
        }
    }
}

// Puts the questions 1 to 3 to a join.
fn ask_join(
    call: JoinCall,
    rows_len: usize,
    counts_len: usize,
    parts_len: usize,
) -> Result<(), Refusal>
    ensures { Asks (first_no (join_questions call.first_header call.second_header call.model call.row_limit call.process_limit rows_len counts_len parts_len)) result }
{
    if (parts_len as u64) < call.row_limit as u64 * PART as u64 {
        return Err(Refusal::ShortSlice);
    }
    let first = Call {
        header: call.first_header,
        model: call.model,
        row_limit: call.row_limit,
        process_limit: call.process_limit,
        byte_limit: 0,
    };
    trace::ask_call(first, rows_len, counts_len)?;
    if 1 < call.second_header {
        return Err(Refusal::HeaderWord);
    }
    Ok(())
}

// Puts the questions from 4 on: those of the first file, those of the second, 19, and those of the joined rows. The files are two slices of one
// lifetime, as a part of one of them is handed over.
fn join_files<'a>(
    first: &'a [u8],
    second: &'a [u8],
    call: JoinCall,
    rows: &mut [u32],
    parts: &mut [u64],
) -> Result<u32, JoinRefused>
    requires { Passed call (length rows.old) (length parts.old) }
    ensures answer { told_joined result ≡ joined_of (join_files call.first_header call.second_header call.row_limit call.process_limit first.now second.now) }
    ensures held { HeldOver (join_files call.first_header call.second_header call.row_limit call.process_limit first.now second.now)
        rows.old rows.new parts.old parts.new }
{
    let n = read_one(File::First, first, call.first_header, call, rows)?;
    let flags = participants::flag_processes([false; FLAGS], rows, n as usize);
    let m = read_one(File::Second, second, call.second_header, call, rows)?;
    if sharing::is_any_flagged(rows, m as usize, flags) {
        return Err(Refusal::SharedProcess.into());
    }
    let both = participants::flag_processes(flags, rows, m as usize);
    let processes = participants::count_flags(both);
    joining::join_entries(first, second, call, processes, rows, parts)
}

// Reads one of the files by itself. A refusal names the file.
fn read_one(
    file: File,
    text: &[u8],
    header: u32,
    call: JoinCall,
    rows: &mut [u32],
) -> Result<u32, JoinRefused>
    ensures answer { TellsFile (check_file text.now header call.row_limit call.process_limit (length rows.old)) result }
    ensures named { IfErr result (λ refused. refused.file ≡ Some file) }
    ensures left { rows.new ≡ one_left (check_file text.now header call.row_limit call.process_limit (length rows.old)) rows.old }
{
    join_reading::read_file(text, header, call.row_limit, call.process_limit, rows).map_err(
        |refused| JoinRefused {
            refusal: refused.refusal,
            place: refused.place,
            file: Some(file),
        },
    )
}
