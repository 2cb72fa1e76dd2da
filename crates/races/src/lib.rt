// Finds the races of rows under a model: the verdict, which is free or the first race, and the list of every race.
#![tactic(auto)]

ghost use Rattle.std.specs.Prelude.{◌≡◌, ◌+◌, ◌*◌, ◌-◌, ◌<◌, ◌≤◌, length, get_or, leb, false, not, ◌&&◌};
ghost use Rattle.models.specs.Table.{publishes};
ghost use Rattle.rows.specs.Kinds.{WRITE};
ghost use Rattle.rows.specs.Rows.{rows_in, row_at, row_in};
ghost use Rattle.rows.specs.Questions.{first_no};
ghost use Rattle.rows.specs.Refusals.{Asks};
ghost use Rattle.happens_before.specs.Clock.{cell_in};
ghost use Rattle.happens_before.specs.Filling.{filled_left};
ghost use Rattle.races_meaning.specs.Races.{share_byte, conflict, verdict_of};
ghost use Rattle.races_meaning.specs.Search.{refresh_at, is_refresh};
ghost use Rattle.races_meaning.specs.Scan.{noted, last_noted, is_in_order};
ghost use Rattle.races_meaning.specs.Lists.{pairs_with, race_pairs};
ghost use Rattle.races.specs.Answers.{judge_questions, verdict_found, found_of, told_found};
ghost use Rattle.races.specs.Listing.{with_pairs, list_questions, listed_of, list_left, room_answer, room_left, told_listed};
ghost use Rattle.races.specs.Given.{Given, Noted, may_conflict, told_row};
ghost use Rattle.rows.specs.Limits.{ROWS, FIELDS};

use rows::refusal::{Refusal, Refused};

// One noted row for each process.
const NOTES: usize = rows::PROCESSES as usize;

// The numbers of a pair of rows: the earlier row's, then the later row's.
const PAIR: usize = 2;

// Two rows that race, by their numbers.
#[derive(Clone, Copy, Debug, PartialEq, Eq, Hash)]
pub struct Race {
    pub earlier: u32,
    pub later: u32,
}

// Answers the first race of the first n rows under a model, if they have one, and fills their counts. A refusal changes nothing: 1 for a slice that is
// too short, 2 for the model or a limit out of its range, 10 for a row whose process is not below the process limit. The rows come as a slice and a
// count, as C lends them.
pub fn verdict(
    rows: &[u32],
    n: u32,
    process_limit: u32,
    model: u32,
    counts: &mut [u16],
) -> Result<Option<Race>, Refusal>
    ensures answer { told_found result ≡ found_of (first_no (judge_questions n process_limit model rows.now (length counts.old))) rows.now n model }
    ensures left { counts.new ≡ filled_left (first_no (judge_questions n process_limit model rows.now (length counts.old))) n process_limit rows.now counts.old }
{
    fill(rows, n, process_limit, model, counts)?;
    let search = Search {
        rows,
        counts,
        n: n as usize,
        processes: process_limit as usize,
        model,
    };
    Ok(search.first_race())
}

// Puts every race of the first n rows under a model into the list, two numbers each, and answers how many there are; fills the counts of the rows.
// It refuses as the verdict does, at place 0, and then with 23 a list that is too short for every race. A refusal keeps the list, and all but 23 the
// counts.
pub fn list_races(
    rows: &[u32],
    n: u32,
    process_limit: u32,
    model: u32,
    counts: &mut [u16],
    list: &mut [u32],
) -> Result<u32, Refused>
    ensures answer { told_listed result ≡ listed_of (first_no (list_questions n process_limit model rows.now (length counts.old) (length list.old))) (race_pairs (rows_in n rows.now) model) }
    ensures left { counts.new ≡ filled_left (first_no (judge_questions n process_limit model rows.now (length counts.old))) n process_limit rows.now counts.old }
    ensures listed { list.new ≡ list_left (first_no (list_questions n process_limit model rows.now (length counts.old) (length list.old))) (race_pairs (rows_in n rows.now) model) list.old }
{
    fill(rows, n, process_limit, model, counts)?;
    let search = Search {
        rows,
        counts,
        n: n as usize,
        processes: process_limit as usize,
        model,
    };
    search.put_all(list)
}

// Asks the questions of a verdict and fills the counts of the rows.
fn fill(
    rows: &[u32],
    n: u32,
    process_limit: u32,
    model: u32,
    counts: &mut [u16],
) -> Result<(), Refusal>
    ensures answer { Asks (first_no (judge_questions n process_limit model rows.now (length counts.old))) result }
    ensures left { counts.new ≡ filled_left (first_no (judge_questions n process_limit model rows.now (length counts.old))) n process_limit rows.now counts.old }
{
    if rows::MODELS <= model {
        if !happens_before::slices_fit(n, process_limit, rows.len(), counts.len()) {
            return Err(Refusal::ShortSlice);
        }
        return Err(Refusal::Limits);
    }
    happens_before::fill_counts(rows, n, process_limit, counts)
}

// The first n rows with their counts, each for the processes below a limit, under a model. Numbers of a row are read where they lie, since
// `rows::row_at` takes 1.8 times as long, and a kind is compared as the number that stands there.
#[derive(Clone, Copy)]
struct Search<'a> {
    rows: &'a [u32],
    counts: &'a [u16],
    n: usize,
    processes: usize,
    model: u32,
    ghost given: { Given n processes model rows.now counts.now },
}

impl<'a> Search<'a> {
    // Answers the first race of the rows.
    fn first_race(self) -> Option<Race>
        ensures { told_found (Ok result) ≡ verdict_found (verdict_of (rows_in self.entry.n self.entry.rows.now) self.entry.model) }
    {
        for y in 0..self.n {
            let mut pair = [0; PAIR];
            let found = self.put_races_with(y, 0, &mut pair);
            // How many pairs were put, which is 0 or 1 in a list of one: the search is that of list_races.
            if 0 < found {
                return Some(Race {
                    earlier: pair[0],
                    later: pair[1],
                });
            }
        }
        None
    }

    // Puts every race of the rows into the list where it has room for all of them; else it refuses with 23 and keeps the list. A list that may be too
    // short is written once the races have been counted.
    fn put_all(self, list: &mut [u32]) -> Result<u32, Refused>
        ensures answer { told_listed result ≡ room_answer (race_pairs (rows_in self.entry.n self.entry.rows.now) self.entry.model) (length list.old) }
        ensures listed { list.new ≡ room_left (race_pairs (rows_in self.entry.n self.entry.rows.now) self.entry.model) list.old }
    {
        let n = self.n;
        if list.len() + n < n * n {
            // An empty list has no room for a pair.
            let needed = self.put_races(&mut []);
            if list.len() < PAIR * needed {
                return Err(Refusal::ListSpace.at(0));
            }
        }
        Ok(self.put_races(list) as u32)
    }

    // Puts the races of the rows at the front of the list, as long as there is room, and answers how many there are.
    fn put_races(self, list: &mut [u32]) -> usize
        ensures answer { result ≡ length (race_pairs (rows_in self.entry.n self.entry.rows.now) self.entry.model) }
        ensures listed { list.new ≡ with_pairs 0 (race_pairs (rows_in self.entry.n self.entry.rows.now) self.entry.model) list.old }
    {
        let mut found = 0;
        for y in 0..self.n {
            found = self.put_races_with(y, found, list);
        }
        found
    }

    // Puts the races of the later row y behind the pairs that were found before, as long as there is room, and answers how many there are with those.
    fn put_races_with(self, y: usize, found: usize, list: &mut [u32]) -> usize
        requires later_row { y < self.n }
        requires few { found ≤ y * ROWS }
        ensures answer { result ≡ found + length (pairs_with (rows_in self.entry.n self.entry.rows.now) self.entry.model y y) }
        ensures listed { list.new ≡ with_pairs found (pairs_with (rows_in self.entry.n self.entry.rows.now) self.entry.model y y) list.old }
    {
        let rows = self.rows;
        if rows::WRITE < rows[y * rows::FIELDS + rows::KIND_AT] {
            return found;
        }
        let later = Later {
            search: self,
            y,
            refresh: self.refresh_at(y),
            own: models::is_publish(self.model, rows::WRITE),
        };
        later.put_found(later.note_rows(), found, list)
    }

    // Rows x and y conflict if they share a byte: they are data rows of one file and two processes, one of them a write. The kinds of two data rows
    // add up to less than WRITE where both are reads.
    fn may_conflict(self, x: usize, y: usize) -> bool
        requires earlier { x < self.n }
        requires later { y < self.n }
        ensures { result ≡ may_conflict (row_in self.entry.rows.now x) (row_in self.entry.rows.now y) }
    {
        let rows = self.rows;
        let a = x * rows::FIELDS;
        let b = y * rows::FIELDS;
        let first = rows[a + rows::KIND_AT];
        let second = rows[b + rows::KIND_AT];
        if rows::WRITE < first {
            return false;
        }
        if rows::WRITE < second {
            return false;
        }
        if first + second < rows::WRITE {
            return false;
        }
        if rows[a] == rows[b] {
            return false;
        }
        rows[a + rows::FILE_AT] == rows[b + rows::FILE_AT]
    }

    // Some byte lies in the ranges of rows x and y.
    fn share_byte(self, x: usize, y: usize) -> bool
        requires earlier { x < self.n }
        requires later { y < self.n }
        ensures { result ≡ share_byte (row_in self.entry.rows.now x) (row_in self.entry.rows.now y) }
    {
        let rows = self.rows;
        let a = x * rows::FIELDS;
        let b = y * rows::FIELDS;
        let shared = ranges::overlap(
            rows[a + rows::OFFSET_AT],
            rows[a + rows::LENGTH_AT],
            rows[b + rows::OFFSET_AT],
            rows[b + rows::LENGTH_AT],
        );
        shared == ranges::YES
    }

    // Answers the last row that refreshes for row y.
    fn refresh_at(self, y: usize) -> Option<usize>
        requires { y < self.n }
        ensures { told_row result ≡ refresh_at (rows_in self.entry.n self.entry.rows.now) self.entry.model y }
    {
        if models::is_refresh(self.model, rows::READ) {
            return Some(y);
        }
        for i in (0..y).rev() {
            if self.refreshes(i, y) {
                return Some(i);
            }
        }
        None
    }

    // Row i refreshes for row y: it is of a kind that refreshes, and of the file and the process of row y.
    fn refreshes(self, i: usize, y: usize) -> bool
        requires earlier { i < self.n }
        requires later { y < self.n }
        ensures { result ≡ is_refresh (rows_in self.entry.n self.entry.rows.now) self.entry.model (row_at (rows_in self.entry.n self.entry.rows.now) y) i }
    {
        let rows = self.rows;
        let at = i * rows::FIELDS;
        let to = y * rows::FIELDS;
        if rows[at] != rows[to] {
            return false;
        }
        if rows[to + rows::FILE_AT] != rows[at + rows::FILE_AT] {
            return false;
        }
        models::is_refresh(self.model, rows[at + rows::KIND_AT])
    }

    // The count of process p at row i is at most that at row j.
    fn counts_before(self, p: usize, i: usize, j: usize) -> bool
        requires process { p < self.processes }
        requires first { i < self.n }
        requires second { j < self.n }
        ensures { result ≡ leb (cell_in self.entry.processes self.entry.counts.now i p) (cell_in self.entry.processes self.entry.counts.now j p) }
    {
        let counts = self.counts;
        let from = i * self.processes + p;
        let to = j * self.processes + p;
        counts[from] <= counts[to]
    }
}

// A later row of a search.
#[derive(Clone, Copy)]
struct Later<'a> {
    search: Search<'a>,
    y: usize,
    // The last row that refreshes for the later row.
    refresh: Option<usize>,
    // A write publishes by itself.
    own: bool,
    ghost is_row: { y < search.n },
    ghost refresh_is: { told_row refresh ≡ refresh_at (rows_in search.n search.rows.now) search.model y },
    ghost own_is: { own ≡ publishes search.model WRITE },
}

impl<'a> Later<'a> {
    // Answers, for each process, the index of its last noted row before the later row, plus one; 0 where there is none. Numbers of their own keep the
    // table small, where an `Option` each would take twice the room.
    fn note_rows(self) -> [usize; NOTES]
        ensures { Noted (rows_in self.entry.search.n self.entry.search.rows.now) self.entry.search.model self.entry.y (told_row self.entry.refresh) result }
    {
        let rows = self.search.rows;
        let mut last = [0; NOTES];
        for c in 0..self.y {
            if self.is_noted(c) {
                last[rows[c * rows::FIELDS] as usize] = c + 1;
            }
        }
        last
    }

    // Puts the rows that race with the later row behind the pairs that were found before; `last` has the last noted row of each process.
    fn put_found(self, last: [usize; NOTES], before: usize, list: &mut [u32]) -> usize
        requires few { before ≤ self.y * ROWS }
        requires noted { Noted (rows_in self.search.n self.search.rows.now) self.search.model self.y (told_row self.refresh) last }
        ensures answer { result ≡ before + length (pairs_with (rows_in self.entry.search.n self.entry.search.rows.now) self.entry.search.model self.entry.y self.entry.y) }
        ensures listed { list.new ≡ with_pairs before (pairs_with (rows_in self.entry.search.n self.entry.search.rows.now) self.entry.search.model self.entry.y self.entry.y) list.old }
    {
        let rows = self.search.rows;
        let mut found = before;
        for x in 0..self.y {
            if self.is_race(x, last[rows[x * rows::FIELDS] as usize]) {
                rows::put_group(list, found, [x as u32 + 1, self.y as u32 + 1]);
                found += 1;
            }
        }
        found
    }

    // Row x before the later row races with it; `last` is the index of the last noted row of the process of x, plus one. Bytes are compared last: of
    // two rows that may conflict and are not in order, a shared byte is a race, and no other pair is asked for its bytes.
    fn is_race(self, x: usize, last: usize) -> bool
        requires earlier { x < self.search.n }
        requires noted_last { 0 < told_row self.refresh → publishes self.search.model WRITE ≡ false → last ≡ last_noted (rows_in self.search.n self.search.rows.now) self.search.model self.y (told_row self.refresh - 1) (row_at (rows_in self.search.n self.search.rows.now) x).process self.y }
        ensures { result ≡ (conflict (row_at (rows_in self.entry.search.n self.entry.search.rows.now) x) (row_at (rows_in self.entry.search.n self.entry.search.rows.now) self.entry.y) && not (is_in_order (rows_in self.entry.search.n self.entry.search.rows.now) self.entry.search.model x self.entry.y)) }
    {
        if !self.search.may_conflict(x, self.y) {
            return false;
        }
        if self.is_in_order(x, last) {
            return false;
        }
        self.search.share_byte(x, self.y)
    }

    // Row c publishes the later row's file and happens before the refresh. Where a write publishes by itself, no such row is needed, and none is told.
    fn is_noted(self, c: usize) -> bool
        requires { c < self.search.n }
        ensures { 0 < told_row self.entry.refresh → publishes self.entry.search.model WRITE ≡ false → result ≡ noted (rows_in self.entry.search.n self.entry.search.rows.now) self.entry.search.model self.entry.y (told_row self.entry.refresh - 1) c }
    {
        let Some(refresh) = self.refresh else {
            return false;
        };
        if self.own {
            return false;
        }
        let rows = self.search.rows;
        let at = c * rows::FIELDS;
        let to = self.y * rows::FIELDS;
        if rows[at + rows::KIND_AT] <= rows::WRITE {
            return false;
        }
        if rows[to + rows::FILE_AT] != rows[at + rows::FILE_AT] {
            return false;
        }
        if !models::is_publish(self.search.model, rows[at + rows::KIND_AT]) {
            return false;
        }
        self.search.counts_before(rows[at] as usize, c, refresh)
    }

    // Row x before the later row is properly synchronized; `last` is the index of the last noted row of the process of x, plus one.
    fn is_in_order(self, x: usize, last: usize) -> bool
        requires earlier { x < self.search.n }
        requires noted_last { 0 < told_row self.refresh → publishes self.search.model WRITE ≡ false → last ≡ last_noted (rows_in self.search.n self.search.rows.now) self.search.model self.y (told_row self.refresh - 1) (row_at (rows_in self.search.n self.search.rows.now) x).process self.y }
        ensures { result ≡ is_in_order (rows_in self.entry.search.n self.entry.search.rows.now) self.entry.search.model x self.entry.y }
    {
        let rows = self.search.rows;
        let at = x * rows::FIELDS;
        if rows[at + rows::KIND_AT] == rows::WRITE && !self.own {
            return self.refresh.is_some() && x + 1 < last;
        }
        self.search.counts_before(rows[at] as usize, x, self.y)
    }
}
