// What the layered file and the plain file share: the header, the questions of a row, and the trait of a file, with making, stepping and
// replaying any of them.
#![tactic(auto)]

mod files;

ghost use Rattle.std.specs.Prelude.{◌+◌, ◌*◌, ◌≡◌, ◌&&◌, leb};
ghost use Rattle.rows.specs.Questions.{first_no};
ghost use Rattle.rows.specs.Refusals.{Asks};
ghost use Rattle.machine_meaning.specs.Layers.{of_file};
ghost use Rattle.machine_meaning.specs.Steps.{row_asked};
ghost use Rattle.machine_state.specs.Answers.{header_of, file_asked, range_asked};

pub use files::{File, Replayed, make, replay, step};
use rows::Row;
use rows::refusal::Refusal;

// What a machine serves: a model, processes below a limit, one file, and maps with space for so many runs each. A plain file ignores
// its model.
#[derive(Clone, Copy, Debug, PartialEq, Eq, Hash)]
pub struct Machine {
    pub model: u32,
    pub process_limit: u32,
    pub file: u32,
    pub map_space: u32,
}

impl Machine {
    pub const MODELS: u32 = rows::MODELS;

    // `rows::is_process_limit` asks it.
    pub const PROCESSES: u32 = rows::PROCESSES;

    pub const FILES: u32 = rows::FILES;

    pub const ROWS: u32 = rows::ROWS;

    // The header of an empty machine.
    pub fn fresh(model: u32, process_limit: u32, file: u32, map_space: u32) -> Machine
        ensures { header_of result ≡ record { model = model; processes = process_limit; file = file; space = map_space } }
    {
        Machine {
            model,
            process_limit,
            file,
            map_space,
        }
    }
}

// The questions 15, 14, 10 and 11 of a row. The kind decides which fields are used.
#[tactic(auto, unfolding(machine_meaning::specs::Steps::row_asked, rows::specs::Questions::first_no))]
pub fn ask_row(machine: Machine, row: Row, number: u32) -> Result<(), Refusal>
    ensures { Asks (first_no (row_asked (header_of machine) row number)) result }
{
    // By the kind's number, as document 01 has it, since a row may have a number that is no kind.
    match row.kind {
        // read, write: process, file, offset and length
        rows::READ | rows::WRITE => ask_range(machine, row, number),
        // commit, open, close, sync: process and file
        rows::COMMIT | rows::OPEN | rows::CLOSE | rows::SYNC => ask_file(machine, row, number),
        // send, recv, wait, barrier and numbers that are no kind: no file
        _ => Err(Refusal::OfFile),
    }
}

// The questions of a row that uses its process and its file: 15, 14 and 10.
#[tactic(auto, unfolding(rows::specs::Questions::first_no))]
fn ask_file(machine: Machine, row: Row, number: u32) -> Result<(), Refusal>
    ensures { Asks (first_no (file_asked (header_of machine) row number)) result }
{
    if row.file != machine.file {
        return Err(Refusal::OfFile);
    }
    if number < 1 {
        return Err(Refusal::RowNumber);
    }
    if Machine::ROWS < number {
        return Err(Refusal::RowNumber);
    }
    if machine.process_limit <= row.process {
        return Err(Refusal::Range);
    }
    Ok(())
}

// The questions of a row that uses its offset and its length too: 11 behind the others.
#[tactic(auto, unfolding(rows::specs::Questions::first_no))]
fn ask_range(machine: Machine, row: Row, number: u32) -> Result<(), Refusal>
    ensures { Asks (first_no (range_asked (header_of machine) row number)) result }
{
    ask_file(machine, row, number)?;
    if rows::OFFSET_MAX - row.offset < row.length {
        return Err(Refusal::RangeEnd);
    }
    Ok(())
}

// Whether a row is one of the file: its kind uses a file, and the row names this one.
pub fn is_of(machine: Machine, row: Row) -> bool
    ensures { result ≡ of_file (header_of machine).file row }
{
    // By the kind's number, as document 01 has it, since a row may have a number that is no kind.
    match row.kind {
        // read, write, commit, open, close, sync
        rows::READ | rows::WRITE | rows::COMMIT | rows::OPEN | rows::CLOSE | rows::SYNC => row.file
            == machine.file,
        // send, recv, wait, barrier and numbers that are no kind
        _ => false,
    }
}

// Whether the slices have six numbers for each of n rows, and one for its count.
pub fn slices_fit(rows_len: usize, counts_len: usize, n: u32) -> bool
    ensures { result ≡ leb (6 * n) rows_len && leb n counts_len }
{
    let all = n as usize;
    all <= rows_len / rows::FIELDS && all <= counts_len
}
