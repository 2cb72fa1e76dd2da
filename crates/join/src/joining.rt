// Joins two files that were read by themselves: takes record after record and puts the questions of a joined row to each.
ghost use Rattle.std.specs.Prelude.{◌≡◌, length, ◌++◌};
ghost use Rattle.barriers.specs.Participants.{participants};
ghost use Rattle.join_meaning.specs.Files.{rows_of, entries_of, rows_start};
ghost use Rattle.join_meaning.specs.Joining.{join_rows, join_entries};
ghost use Rattle.join.specs.Answers.{told_choice, told_joined};
ghost use Rattle.join.specs.Taking.{with_part};
ghost use Rattle.join.specs.Leaving.{joined_of, Fits, ReadAs, Holds};

use crate::choosing::{self, Choice, File, Tables};
use crate::{JoinCall, JoinRefused};
use rows::refusal::Refusal;

// How many numbers tell of a joined row where its record stands: the file, its start and its end.
pub(crate) const PART: usize = 3;

// Answers where the first row may start: at the front, and behind the header where there is one.
#[tactic(auto, unfolding(join_meaning::specs::Files::rows_start))]
fn start_of(text: &[u8], header: u32) -> usize
    ensures { result ≡ rows_start header text.now }
{
    if header == 0 {
        return 0;
    }
    match csv_records::read_record(text, 0, text.len()) {
        Ok(Some(record)) => record.next,
        _ => 0,
    }
}

// Puts where the record of joined row k stands. A slice that has no room there stays as it is. The numbers of a part have 64 bits, so this
// stands beside rows::put_group; one put for both sizes of numbers would be four times slower for rows.
#[tactic(auto, unfolding(crate::specs::Taking::with_part))]
fn put_part(parts: &mut [u64], k: usize, choice: Choice)
    ensures { parts.new ≡ with_part k (told_choice choice) parts.old }
{
    let at = k.saturating_mul(PART);
    if at <= parts.len() && PART <= parts.len() - at {
        let part = [
            u64::from(choice.file.number()),
            choice.start as u64,
            choice.end as u64,
        ];
        parts[at..at + PART].copy_from_slice(&part);
    }
}

// Joins the records of both files, in which so many processes have rows, and puts 22 to the joined rows.
pub(crate) fn join_entries<'a>(
    first: &'a [u8],
    second: &'a [u8],
    call: JoinCall,
    processes: u32,
    rows: &mut [u32],
    parts: &mut [u64],
) -> Result<u32, JoinRefused>
    requires fits { Fits call.row_limit call.process_limit (length rows.old) (length parts.old) }
    requires first_read { ReadAs call.first_header call.row_limit call.process_limit first.now }
    requires second_read { ReadAs call.second_header call.row_limit call.process_limit second.now }
    requires told_processes { processes ≡ participants (rows_of (entries_of 1 call.first_header first.now) ++ rows_of (entries_of 2 call.second_header second.now)) }
    ensures answer { told_joined result ≡ joined_of (join_entries call.row_limit (entries_of 1 call.first_header first.now) (entries_of 2 call.second_header second.now)) }
    ensures held { Holds (join_entries call.row_limit (entries_of 1 call.first_header first.now) (entries_of 2 call.second_header second.now))
        rows.old rows.new parts.old parts.new }
{
    let n = join_records(first, second, call, processes, rows, parts)?;
    match barriers::place_of(rows, n) {
        Some(place) => Err(Refusal::BarrierOrder.at(place).into()),
        None => Ok(n),
    }
}

// Takes every record of both files in its turn.
fn join_records<'a>(
    first: &'a [u8],
    second: &'a [u8],
    call: JoinCall,
    processes: u32,
    rows: &mut [u32],
    parts: &mut [u64],
) -> Result<u32, JoinRefused>
    requires fits { Fits call.row_limit call.process_limit (length rows.old) (length parts.old) }
    requires first_read { ReadAs call.first_header call.row_limit call.process_limit first.now }
    requires second_read { ReadAs call.second_header call.row_limit call.process_limit second.now }
    requires told_processes { processes ≡ participants (rows_of (entries_of 1 call.first_header first.now) ++ rows_of (entries_of 2 call.second_header second.now)) }
    ensures answer { told_joined result ≡ joined_of (join_rows call.row_limit (entries_of 1 call.first_header first.now) (entries_of 2 call.second_header second.now)) }
    ensures held { Holds (join_rows call.row_limit (entries_of 1 call.first_header first.now) (entries_of 2 call.second_header second.now))
        rows.old rows.new parts.old parts.new }
{
    let limit = call.process_limit;
    let mut tables = Tables::new(processes);
    let mut a = choosing::next_at(first, start_of(first, call.first_header), limit);
    let mut b = choosing::next_at(second, start_of(second, call.second_header), limit);
    let mut n = 0;
    // A record is taken in its turn: the turn is computed from the tables, so this is no loop over a list.
    while let Some(choice) = tables.choose(a, b)? {
        let file = choice.file.number();
        let part = choosing::hand_over(first, second, file, choice.start, choice.end);
        let row = choosing::row_of(part, limit);
        tables.take(row, n, call.row_limit)?;
        rows::put_row(rows, n as usize, row);
        put_part(parts, n as usize, choice);
        n += 1;
        a = choosing::step(first, a, choice.file == File::First, limit);
        b = choosing::step(second, b, choice.file == File::Second, limit);
    }
    Ok(n)
}
