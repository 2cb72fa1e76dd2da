// The library for C and Rust. Numbers pass as themselves, and a slice as a pointer and then its length.
#![tactic(auto)]

ghost use Rattle.std.specs.Prelude.{◌≡◌, ◌+◌, ◌*◌, length};
ghost use Rattle.trace.specs.Questions.{check_trace};
ghost use Rattle.happens_before.specs.Filling.{fill_questions};
ghost use Rattle.races.specs.Answers.{judge_questions};
ghost use Rattle.checker.specs.Report.{report_length, report_in};
ghost use Rattle.machine_meaning.specs.Steps.{making_questions, plain_making_questions, step_of, plain_step_of};
ghost use Rattle.machine_state.specs.Replays.{replay_of, plain_replay_of};
ghost use Rattle.join_reading.specs.Reading.{check_file};
ghost use Rattle.join_meaning.specs.Joining.{join_traces};
ghost use Rattle.writer.specs.Writing.{write_trace};
ghost use Rattle.kiqsaryn.specs.Packing.{Gives, JudgeGives, FileGives, JoinGives, Fills, Judges, ListGives, RowsListGives, NO_MODEL, header_from, row_from, Makes, StepGives, ReplayGives, WriteGives, LookupGives};

use join::JoinCall;
use kiqsaryn_packing::{Packed, number_or_zero};
use machine_state::Machine;
use rows::Row;
use trace::Call;

// The model of a plain file, which no call reads.
const NO_MODEL: u32 = 0;

// Checks a trace, as trace::check_trace does. The answer is the row count of an accepted trace, below 2^32, and of a refusal its number
// times 2^32 plus its place.
#[unsafe(no_mangle)]
pub extern "C" fn kiqsaryn_check_trace(
    text: &[u8],
    header: u32,
    model: u32,
    row_limit: u32,
    process_limit: u32,
    byte_limit: usize,
    rows: &mut [u32],
    counts: &mut [u16],
) -> u64
    ensures { Gives
        (check_trace text.now header model row_limit process_limit byte_limit (length rows.old) (length counts.old))
        result rows.old rows.new counts.old counts.new }
{
    let call = Call {
        header,
        model,
        row_limit,
        process_limit,
        byte_limit,
    };
    trace::check_trace(text, call, rows, counts).pack()
}

// Makes the whole call on a trace, as checker::judge does: its rows, their counts and the verdict under the model. The answer is four words of 16
// bits. Of an accepted trace, from the lowest: the row count, the later and the earlier row of the first race, both 0 for free, and 0. Of a
// refusal: its place in the lowest, its number in the highest, and 0 between.
#[unsafe(no_mangle)]
pub extern "C" fn kiqsaryn_judge(
    text: &[u8],
    header: u32,
    model: u32,
    row_limit: u32,
    process_limit: u32,
    byte_limit: usize,
    rows: &mut [u32],
    counts: &mut [u16],
) -> u64
    ensures { JudgeGives model process_limit
        (check_trace text.now header model row_limit process_limit byte_limit (length rows.old) (length counts.old))
        result rows.old rows.new counts.old counts.new }
{
    let call = Call {
        header,
        model,
        row_limit,
        process_limit,
        byte_limit,
    };
    checker::judge(text, call, rows, counts).pack()
}

// Lists every race of a trace under the model, as checker::list_races does: its rows, their counts, and in the list two numbers for each race. The
// answer is the number of pairs, below 2^32, and of a refusal its number times 2^32 plus its place.
#[unsafe(no_mangle)]
pub extern "C" fn kiqsaryn_list_races(
    text: &[u8],
    header: u32,
    model: u32,
    row_limit: u32,
    process_limit: u32,
    byte_limit: usize,
    rows: &mut [u32],
    counts: &mut [u16],
    list: &mut [u32],
) -> u64
    ensures { ListGives model process_limit
        (check_trace text.now header model row_limit process_limit byte_limit (length rows.old) (length counts.old))
        result rows.old rows.new counts.old counts.new list.old list.new }
{
    let call = Call {
        header,
        model,
        row_limit,
        process_limit,
        byte_limit,
    };
    checker::list_races(text, call, rows, counts, list).pack()
}

// Reads one file of a join by itself, as join_reading::read_file does: the questions 1 to 11. The answer is the row count of an accepted file, below
// 2^32, and of a refusal its number times 2^32 plus its place.
#[unsafe(no_mangle)]
pub extern "C" fn kiqsaryn_read_file(
    text: &[u8],
    header: u32,
    row_limit: u32,
    process_limit: u32,
    rows: &mut [u32],
) -> u64
    ensures { FileGives (check_file text.now header row_limit process_limit (length rows.old)) result rows.old rows.new }
{
    join_reading::read_file(text, header, row_limit, process_limit, rows).pack()
}

// Makes the whole call on the traces of two controllers, as join_checker::judge_join does: the joined rows, their counts, for each row three numbers in
// parts (the file that holds its record, and where the record starts and ends there), and the verdict under the model. The answer is four words of
// 16 bits. Of an accepted join, from the lowest: the row count, the later and the earlier row of the first race, both 0 for free, and 0. Of a refusal:
// its place, its file, 0, and its number in the highest.
#[unsafe(no_mangle)]
pub extern "C" fn kiqsaryn_join<'a>(
    first: &'a [u8],
    first_header: u32,
    second: &'a [u8],
    second_header: u32,
    model: u32,
    row_limit: u32,
    process_limit: u32,
    rows: &mut [u32],
    counts: &mut [u16],
    parts: &mut [u64],
) -> u64
    ensures { JoinGives model process_limit
        (join_traces first.now second.now first_header second_header model row_limit process_limit
        (length rows.old) (length counts.old) (length parts.old))
        result rows.old rows.new counts.old counts.new parts.old parts.new }
{
    let call = JoinCall {
        first_header,
        second_header,
        model,
        row_limit,
        process_limit,
    };
    join_checker::judge_join(first, second, call, rows, counts, parts).pack()
}

// Fills the happens-before counts of the first n rows, as happens_before::fill_counts does. The answer is 0, and the number of a refusal.
#[unsafe(no_mangle)]
pub extern "C" fn kiqsaryn_fill_counts(
    rows: &[u32],
    n: u32,
    process_limit: u32,
    counts: &mut [u16],
) -> u32
    ensures { Fills (fill_questions n process_limit rows.now (length counts.old)) n process_limit result
        rows.now counts.old counts.new }
{
    number_or_zero(happens_before::fill_counts(rows, n, process_limit, counts))
}

// Answers the verdict on the first n rows under a model, as races::verdict does. The answer is 0 for a free trace, the earlier row's number times
// 2^32 plus the later row's for a race, whose low 32 bits are at least 2, and of a refusal its number times 2^32.
#[unsafe(no_mangle)]
pub extern "C" fn kiqsaryn_verdict(
    rows: &[u32],
    n: u32,
    process_limit: u32,
    model: u32,
    counts: &mut [u16],
) -> u64
    ensures { Judges (judge_questions n process_limit model rows.now (length counts.old)) n process_limit model result
        rows.now counts.old counts.new }
{
    races::verdict(rows, n, process_limit, model, counts).pack()
}

// Lists every race of the first n rows under a model, as races::list_races does. The answer is the number of pairs, below 2^32, and of a refusal its
// number times 2^32.
#[unsafe(no_mangle)]
pub extern "C" fn kiqsaryn_races(
    rows: &[u32],
    n: u32,
    process_limit: u32,
    model: u32,
    counts: &mut [u16],
    list: &mut [u32],
) -> u64
    ensures { RowsListGives n process_limit model result
        rows.now counts.old counts.new list.old list.new }
{
    races::list_races(rows, n, process_limit, model, counts, list).pack()
}

// Puts what the program verdict prints of a trace with header at the front of a slice of 256 bytes or more, as checker::report does. The
// answer is its length, and 0 for a shorter slice.
#[unsafe(no_mangle)]
pub extern "C" fn kiqsaryn_report(text: &[u8], out: &mut [u8]) -> usize
    ensures answer { result ≡ report_length text.now out.old }
    ensures left { out.new ≡ report_in text.now out.old }
{
    checker::report(text, out)
}

// Makes a machine over a slice, as machine::make does. The answer is 0, and the number of a refusal.
#[unsafe(no_mangle)]
pub extern "C" fn kiqsaryn_make(
    model: u32,
    process_limit: u32,
    file: u32,
    map_space: u32,
    maps: &mut [u32],
) -> u32
    ensures { Makes (making_questions (header_from model process_limit file map_space) (length maps.old)) (4 * map_space * (process_limit + 1)) result
        maps.old maps.new }
{
    let header = Machine::fresh(model, process_limit, file, map_space);
    number_or_zero(machine::make(header, maps))
}

// Makes a plain file over a slice, as machine::make_plain does. The answer is 0, and the number of a refusal.
#[unsafe(no_mangle)]
pub extern "C" fn kiqsaryn_make_plain(
    process_limit: u32,
    file: u32,
    map_space: u32,
    map: &mut [u32],
) -> u32
    ensures { Makes (plain_making_questions (header_from NO_MODEL process_limit file map_space) (length map.old)) (4 * map_space) result
        map.old map.new }
{
    let header = Machine::fresh(NO_MODEL, process_limit, file, map_space);
    number_or_zero(machine::make_plain(header, map))
}

// Puts a row to a machine under a row number, as machine::step does. The answer is the count of pieces, below 2^32, 0 for a row that is no
// read, and of a refusal its number times 2^32.
#[unsafe(no_mangle)]
pub extern "C" fn kiqsaryn_step(
    model: u32,
    process_limit: u32,
    file: u32,
    map_space: u32,
    maps: &mut [u32],
    process: u32,
    kind: u32,
    row_file: u32,
    offset: u32,
    size: u32,
    number: u32,
    out: &mut [u32],
) -> u64
    ensures { StepGives (step_of (header_from model process_limit file map_space) maps.old (row_from process kind row_file offset size) number out.old)
        result maps.new out.new }
{
    let row = Row {
        process,
        kind,
        file: row_file,
        offset: offset,
        length: size,
        message: 0,
    };
    let header = Machine::fresh(model, process_limit, file, map_space);
    machine::step(header, maps, row, number, out).pack()
}

// Puts a row to a plain file under a row number, as machine::step_plain does. The answer is the count of pieces, below 2^32, 0 for a row that
// is no read, and of a refusal its number times 2^32.
#[unsafe(no_mangle)]
pub extern "C" fn kiqsaryn_step_plain(
    process_limit: u32,
    file: u32,
    map_space: u32,
    map: &mut [u32],
    process: u32,
    kind: u32,
    row_file: u32,
    offset: u32,
    size: u32,
    number: u32,
    out: &mut [u32],
) -> u64
    ensures { StepGives (plain_step_of (header_from NO_MODEL process_limit file map_space) map.old (row_from process kind row_file offset size) number out.old)
        result map.new out.new }
{
    let row = Row {
        process,
        kind,
        file: row_file,
        offset: offset,
        length: size,
        message: 0,
    };
    let header = Machine::fresh(NO_MODEL, process_limit, file, map_space);
    machine::step_plain(header, map, row, number, out).pack()
}

// Replays the rows behind the first ones, up to row n, as machine::replay does. The answer is how many rows the replay has gone through, those
// first ones included, plus 2^32 times the number of the refusal that ended it, 0 for none.
#[unsafe(no_mangle)]
pub extern "C" fn kiqsaryn_replay(
    model: u32,
    process_limit: u32,
    file: u32,
    map_space: u32,
    maps: &mut [u32],
    rows: &[u32],
    first: u32,
    n: u32,
    counts: &mut [u32],
    out: &mut [u32],
) -> u64
    ensures { ReplayGives (replay_of (header_from model process_limit file map_space) rows.now first n maps.old counts.old out.old)
        result maps.new counts.new out.new }
{
    let header = Machine::fresh(model, process_limit, file, map_space);
    machine::replay(header, maps, rows, first, n, counts, out).pack()
}

// Replays the rows behind the first ones, up to row n, as machine::replay_plain does. The answer is how many rows the replay has gone through,
// those first ones included, plus 2^32 times the number of the refusal that ended it, 0 for none.
#[unsafe(no_mangle)]
pub extern "C" fn kiqsaryn_replay_plain(
    process_limit: u32,
    file: u32,
    map_space: u32,
    map: &mut [u32],
    rows: &[u32],
    first: u32,
    n: u32,
    counts: &mut [u32],
    out: &mut [u32],
) -> u64
    ensures { ReplayGives (plain_replay_of (header_from NO_MODEL process_limit file map_space) rows.now first n map.old counts.old out.old)
        result map.new counts.new out.new }
{
    let header = Machine::fresh(NO_MODEL, process_limit, file, map_space);
    machine::replay_plain(header, map, rows, first, n, counts, out).pack()
}

// Writes the first n rows as a trace from the place on, as writer::write_trace does. The answer is the text's length, below 2^32, and of a refusal
// its number times 2^32 plus its place.
#[unsafe(no_mangle)]
pub extern "C" fn kiqsaryn_write(
    rows: &[u32],
    n: u32,
    header: u32,
    process_limit: u32,
    out: &mut [u8],
    place: usize,
) -> u64
    ensures { WriteGives (write_trace rows.now n header process_limit (length out.old) place)
        result place out.old out.new }
{
    writer::write_trace(rows, n, header, process_limit, out, place).pack()
}

// Looks a byte up in a map of pieces, as extents::lookup does. The answer is the first byte behind it where the row number or the mark differs, plus
// 2^32 times the mark plus 2^34 times the row number, and of a refusal its number times 2^48.
#[unsafe(no_mangle)]
pub extern "C" fn kiqsaryn_lookup(map: &[u32], byte: u32) -> u64
    ensures { LookupGives map.now byte result }
{
    extents::lookup(map, byte).pack()
}
