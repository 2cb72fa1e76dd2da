// Fills the happens-before counts of every row of a trace: how many rows of each process happen before the row or are the row. One pass over
// the rows keeps three tables of the rows before (specs/Tables.antt), so no row is looked for by a scan.
#![tactic(auto)]

ghost use Rattle.std.specs.Prelude.{◌≡◌, ℕ, max, ◌+◌, ◌*◌, ◌-◌, ◌<◌, ◌≤◌, length};
ghost use Rattle.rows.specs.Questions.{long_enough, first_no};
ghost use Rattle.rows.specs.Refusals.{Asks};
ghost use Rattle.happens_before.specs.Clock.{alike, pairs, cell_in, with_counts, joined_row, joined_last, joined_pairs, joined_sends, joined_barrier, with_own, filled_row};
ghost use Rattle.rows.specs.Rows.{row_in};
ghost use Rattle.happens_before.specs.Filling.{processes_in, fill_questions, filled_left};
ghost use Rattle.happens_before.specs.Tables.{chain_of, chained, Tables};
ghost use Rattle.rows.specs.Limits.{ROWS, PROCESSES, FIELDS};

use rows::refusal::Refusal;

// How many chains there are. The chain of a message or a barrier is its number's remainder by this number, so any number has one.
const CHAINS: usize = 4096;

// Fills the counts of the first n rows, each for the processes below the limit, and clears what lies behind them. A refusal changes nothing:
// 1 for a slice that is too short, 2 for a limit out of its range, 10 for a row whose process is not below the process limit. The rows come as a slice
// and a count, and the counts as numbers side by side, as C lends them.
pub fn fill_counts(
    rows: &[u32],
    n: u32,
    process_limit: u32,
    counts: &mut [u16],
) -> Result<(), Refusal>
    ensures answer { Asks (first_no (fill_questions n process_limit rows.now (length counts.old))) result }
    ensures left { counts.new ≡ filled_left (first_no (fill_questions n process_limit rows.now (length counts.old))) n process_limit rows.now counts.old }
{
    ask_rows(rows, n, process_limit, counts.len())?;
    counts.fill(0);
    let mut pass = Pass::new(rows, process_limit as usize);
    for _ in 0..n {
        pass.fill_row(counts);
        pass.note_row();
    }
    Ok(())
}

// Asks the questions 1, 2 and 10.
#[tactic(auto, unfolding(rows::specs::Questions::first_no, crate::specs::Filling::fill_questions))]
fn ask_rows(rows: &[u32], n: u32, process_limit: u32, counts_len: usize) -> Result<(), Refusal>
    ensures { Asks (first_no (fill_questions n process_limit rows.now counts_len)) result }
{
    if !slices_fit(n, process_limit, rows.len(), counts_len) {
        return Err(Refusal::ShortSlice);
    }
    if rows::ROWS < n {
        return Err(Refusal::Limits);
    }
    if !rows::is_process_limit(process_limit) {
        return Err(Refusal::Limits);
    }
    if !processes_in(rows, n as usize, process_limit) {
        return Err(Refusal::Range);
    }
    Ok(())
}

// Question 1: both slices are long enough for n rows.
pub fn slices_fit(n: u32, process_limit: u32, rows_len: usize, counts_len: usize) -> bool
    ensures { result ≡ long_enough n process_limit rows_len counts_len }
{
    if (rows_len as u64) < n as u64 * rows::FIELDS as u64 {
        return false;
    }
    n as u64 * process_limit as u64 <= counts_len as u64
}

// Question 10: every process of the first n rows is below the limit.
#[tactic(auto, unfolding(crate::specs::Filling::processes_in))]
fn processes_in(rows: &[u32], n: usize, process_limit: u32) -> bool
    requires { n * FIELDS ≤ length rows.now }
    ensures { result ≡ processes_in n process_limit rows.now }
{
    // One number of each row by its place: to make a row of all six takes 1.8 times as long.
    // From both ends, so that a row that is out of place near either one is met at once.
    for i in 0..n {
        if process_limit <= rows[i * rows::FIELDS] {
            return false;
        }
        if process_limit <= rows[(n - 1 - i) * rows::FIELDS] {
            return false;
        }
    }
    true
}

// Answers the chain of a number in the message field.
fn chain_of(message: u32) -> usize
    ensures { result ≡ chain_of message }
{
    message as usize % CHAINS
}

// Rows of this kind stand in chains: sends and barrier rows. A kind is compared as the number that the row has: making a `Kind` of it first is no
// plainer.
fn is_chained(kind: u32) -> bool
    ensures { result ≡ chained kind }
{
    kind == rows::SEND || kind == rows::BARRIER
}

// A pass over the rows: the row that it has come to, and the tables of the rows before, by which they are found. A table names a row by its index
// plus one, and 0 stands for none: 16 bits an entry keep the tables small. The counts are lent to each method: a struct that held them would need a
// clause in each, that it still lends the same slice.
#[derive(Drop)]
struct Pass<'a> {
    rows: &'a [u32],
    processes: usize,
    row: usize,
    // The last row of each process.
    lasts: [u16; rows::PROCESSES as usize],
    // The last row of each chain.
    heads: [u16; CHAINS],
    // For each row of a chain, the one before it in the chain.
    earlier: [u16; rows::ROWS as usize],
    ghost few: { processes ≤ PROCESSES },
    ghost tables: { Tables rows.now row lasts heads earlier },
}

impl<'a> Pass<'a> {
    // Before the first row.
    fn new(rows: &'a [u32], processes: usize) -> Self
        requires { processes ≤ PROCESSES }
        ensures same_rows { result.rows.now ≡ rows.now }
        ensures same_processes { result.processes ≡ processes }
        ensures first { result.row ≡ 0 }
    {
        Pass {
            rows,
            processes,
            row: 0,
            lasts: [0; rows::PROCESSES as usize],
            heads: [0; CHAINS],
            earlier: [0; rows::ROWS as usize],
        }
    }

    // Fills the counts of the row, which are 0, from the counts of the rows before, of which the tables tell. Numbers of a row are read where they lie:
    // `rows::row_at` reads all six, and takes 1.8 times as long.
    fn fill_row(&self, counts: &mut [u16])
        requires row_inside { self.now.row * FIELDS + FIELDS ≤ length self.now.rows.now }
        requires counts_inside { self.now.row * self.now.processes + self.now.processes ≤ length counts.old }
        requires process_below { (row_in self.now.rows.now self.now.row).process < self.now.processes }
        requires zero_row { (p : ℕ) → p < self.now.processes → cell_in self.now.processes counts.old self.now.row p ≡ 0 }
        requires small_counts { (k : ℕ) → (p : ℕ) → k < self.now.row → p < self.now.processes → cell_in self.now.processes counts.old k p ≤ ROWS }
        ensures { counts.new ≡ with_counts self.now.processes counts.old self.now.row (filled_row self.now.processes self.now.rows.now counts.old self.now.row) }
    {
        let rows = self.rows;
        let process = rows[self.row * rows::FIELDS];
        let last = self.lasts[process as usize] as usize;
        self.join_last(counts, last);
        self.join_sends(counts);
        self.join_barrier(counts, last);
        self.add_own(counts, process);
    }

    // Notes the row in the tables, as the last row of its process and, if it is a send or a barrier row, as the head of its number's chain, and goes
    // on to the next.
    fn note_row(&mut self)
        requires row_inside { self.old.row * FIELDS + FIELDS ≤ length self.old.rows.now }
        requires few { self.old.row < ROWS }
        requires process_below { (row_in self.old.rows.now self.old.row).process < PROCESSES }
        ensures same_rows { self.new.rows ≡ self.old.rows }
        ensures same_processes { self.new.processes ≡ self.old.processes }
        ensures next { self.new.row ≡ self.old.row + 1 }
    {
        let rows = self.rows;
        let row = self.row;
        let at = row * rows::FIELDS;
        let next = row as u16 + 1;
        self.row = row + 1;
        self.lasts[rows[at] as usize] = next;
        if is_chained(rows[at + rows::KIND_AT]) {
            let chain = chain_of(rows[at + rows::MESSAGE_AT]);
            self.earlier[row] = self.heads[chain];
            self.heads[chain] = next;
        }
    }

    // Joins the counts of every row before the row that belongs together with row t into the row's counts: the chain of row t's number leads from row
    // to earlier row.
    fn join_pairs(&self, counts: &mut [u16], t: usize)
        requires turn { t ≤ self.now.row }
        requires row_inside { self.now.row * FIELDS + FIELDS ≤ length self.now.rows.now }
        requires counts_inside { self.now.row * self.now.processes + self.now.processes ≤ length counts.old }
        ensures { counts.new ≡ with_counts self.now.processes counts.old self.now.row (joined_pairs self.now.processes self.now.rows.now counts.old self.now.row t) }
    {
        let rows = self.rows;
        let chain = chain_of(rows[t * rows::FIELDS + rows::MESSAGE_AT]);
        let mut next = self.heads[chain] as usize;
        // The chain's links say where to go on, so there is nothing that a `for` could count.
        while 0 < next {
            let k = next - 1;
            if belong(rows, k, t) {
                self.join(counts, k);
            }
            next = self.earlier[k] as usize;
        }
    }

    // Joins the counts of every send whose message arrives at the row into the row's counts.
    fn join_sends(&self, counts: &mut [u16])
        requires row_inside { self.now.row * FIELDS + FIELDS ≤ length self.now.rows.now }
        requires counts_inside { self.now.row * self.now.processes + self.now.processes ≤ length counts.old }
        ensures { counts.new ≡ with_counts self.now.processes counts.old self.now.row (joined_sends self.now.processes self.now.rows.now counts.old self.now.row) }
    {
        let rows = self.rows;
        let at = self.row * rows::FIELDS;
        if rows[at + rows::KIND_AT] == rows::ARRIVAL {
            self.join_pairs(counts, self.row);
        }
    }

    // Joins the counts of every row of the barrier that row `last` - 1 is of into the row's counts. Nothing changes where `last` is 0 or names a row
    // that is of no barrier.
    fn join_barrier(&self, counts: &mut [u16], last: usize)
        requires before { last ≤ self.now.row }
        requires row_inside { self.now.row * FIELDS + FIELDS ≤ length self.now.rows.now }
        requires counts_inside { self.now.row * self.now.processes + self.now.processes ≤ length counts.old }
        ensures { counts.new ≡ with_counts self.now.processes counts.old self.now.row (joined_barrier self.now.processes self.now.rows.now counts.old self.now.row last) }
    {
        if last == 0 {
            return;
        }
        let rows = self.rows;
        let at = (last - 1) * rows::FIELDS;
        if rows[at + rows::KIND_AT] != rows::BARRIER {
            return;
        }
        self.join_pairs(counts, last - 1);
    }

    // Joins the counts of row `last` - 1 into the row's counts. Nothing changes where `last` is 0.
    fn join_last(&self, counts: &mut [u16], last: usize)
        requires before { last ≤ self.now.row }
        requires counts_inside { self.now.row * self.now.processes + self.now.processes ≤ length counts.old }
        ensures { counts.new ≡ with_counts self.now.processes counts.old self.now.row (joined_last self.now.processes counts.old self.now.row last) }
    {
        if 0 < last {
            self.join(counts, last - 1);
        }
    }

    // Joins the counts of row k into the row's counts.
    fn join(&self, counts: &mut [u16], k: usize)
        requires before { k < self.now.row }
        requires counts_inside { self.now.row * self.now.processes + self.now.processes ≤ length counts.old }
        ensures { counts.new ≡ with_counts self.now.processes counts.old self.now.row (joined_row self.now.processes counts.old self.now.row k) }
    {
        let from = k * self.processes;
        let to = self.row * self.processes;
        // By index: a `zip` of two parts takes 1.15 times as long, and its proof loses the elements.
        for p in 0..self.processes {
            counts[to + p] = counts[to + p].max(counts[from + p]);
        }
    }

    // Counts the row itself, which is of this process.
    fn add_own(&self, counts: &mut [u16], process: u32)
        requires process_below { process < self.now.processes }
        requires counts_inside { self.now.row * self.now.processes + self.now.processes ≤ length counts.old }
        requires small { cell_in self.now.processes counts.old self.now.row process ≤ ROWS }
        ensures { counts.new ≡ with_counts self.now.processes counts.old self.now.row (with_own process (λ p. cell_in self.now.processes counts.old self.now.row p)) }
    {
        counts[self.row * self.processes + process as usize] += 1;
    }
}

// Row k is of the first kind, row t of the second, and both have one number in the message field.
fn are_alike(rows: &[u32], k: usize, t: usize, one: u32, other: u32) -> bool
    requires { (k * FIELDS + FIELDS ≤ length rows.now) × (t * FIELDS + FIELDS ≤ length rows.now) }
    ensures { result ≡ alike one other (row_in rows.now k) (row_in rows.now t) }
{
    let from = k * rows::FIELDS;
    let to = t * rows::FIELDS;
    if rows[from + rows::KIND_AT] != one {
        return false;
    }
    if rows[to + rows::KIND_AT] != other {
        return false;
    }
    rows[from + rows::MESSAGE_AT] == rows[to + rows::MESSAGE_AT]
}

// Rows k and t belong together: what row k sends arrives at row t, or both are of one barrier.
fn belong(rows: &[u32], k: usize, t: usize) -> bool
    requires { (k * FIELDS + FIELDS ≤ length rows.now) × (t * FIELDS + FIELDS ≤ length rows.now) }
    ensures { result ≡ pairs (row_in rows.now k) (row_in rows.now t) }
{
    if are_alike(rows, k, t, rows::SEND, rows::ARRIVAL) {
        return true;
    }
    are_alike(rows, k, t, rows::BARRIER, rows::BARRIER)
}
