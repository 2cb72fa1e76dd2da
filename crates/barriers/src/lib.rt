// Barriers: whether every process that has a row in a trace arrives at each barrier once, and none goes on before all have arrived. This is
// question 22. The tables of one pass also tell a join which rows to hold back.
#![tactic(auto)]

pub mod participants;

ghost use Rattle.std.specs.Prelude.{◌≡◌, ℕ, ◌<◌, None, get_or, replicate};
ghost use Rattle.rows.specs.Limits.{PROCESSES, MESSAGES};
ghost use Rattle.rows.specs.Rows.{row_in, rows_in};
ghost use Rattle.rows.specs.Tests.{any};
ghost use Rattle.barriers.specs.Barriers.{is_barrier, barrier_place, AtPlace};
ghost use Rattle.barriers.specs.Tables.{stand_of, noted_stand, one_more, noted_arrival, arrivals_after, held_by, out_by, first_out_by, unfinished_by};

use participants::FLAGS;
use rows::Row;
use rows::kind::Kind;

// The table by process has one entry for each process.
pub const STANDS: usize = rows::PROCESSES as usize;
// The table by barrier has one entry for each barrier number.
pub const NUMBERS: usize = rows::MESSAGES as usize;

// Answers question 22 of the first n rows: the place of its No, if it is answered so. The rows come as a slice and a count, as C lends them.
pub fn place_of(rows: &[u32], n: u32) -> Option<u32>
    requires { (k : ℕ) → k < n → ((row_in rows.now k).process < PROCESSES) × ((row_in rows.now k).message < MESSAGES) }
    ensures { AtPlace (barrier_place (rows_in n rows.now)) result }
{
    // The tables stand before the first answer, so that the compiler makes the large frame at the function's entry (docs/DECISIONS.md, Forms).
    let mut table = BarrierTable::new(0);
    if !has_barrier(rows, n as usize) {
        return None;
    }
    let flags = participants::flag_processes([false; FLAGS], rows, n as usize);
    table.processes = participants::count_flags(flags);
    match table.first_out(rows, n) {
        Some(place) => Some(place),
        None if table.is_unfinished(rows, n as usize) => Some(n),
        None => None,
    }
}

// Whether one of the first n rows is of a barrier.
#[tactic(auto, unfolding(rows::specs::Tests::any))]
fn has_barrier(rows: &[u32], n: usize) -> bool
    ensures { result ≡ any is_barrier (rows_in n rows.now) }
{
    for row in rows::first_rows(rows, n) {
        if is_barrier(row) {
            return true;
        }
    }
    false
}

// Whether a row is of a barrier.
fn is_barrier(row: Row) -> bool
    ensures { result ≡ is_barrier row }
{
    row.kind == Kind::Barrier.number()
}

// Which rows have arrived: the barrier at which each process stands, plus one and 0 for none (the form that the tables of the definitions
// have, in fixed memory); how many rows each barrier has; and how many processes have rows.
#[derive(Drop)]
pub struct BarrierTable {
    pub stands: [u32; STANDS],
    pub arrivals: [u8; NUMBERS],
    pub processes: u32,
}

impl BarrierTable {
    // No row has arrived of so many processes.
    pub fn new(processes: u32) -> Self
        ensures stands { result.stands ≡ replicate PROCESSES 0 }
        ensures arrivals { result.arrivals ≡ replicate MESSAGES 0 }
        ensures processes { result.processes ≡ processes }
    {
        BarrierTable {
            stands: [0; STANDS],
            arrivals: [0; NUMBERS],
            processes,
        }
    }

    // Notes a row: the barrier at which its process now stands, and one row more of that barrier.
    pub fn note(&mut self, row: Row)
        ensures stands { self.new.stands ≡ noted_stand self.old.stands row }
        ensures arrivals { self.new.arrivals ≡ noted_arrival self.old.arrivals row }
        ensures processes { self.new.processes ≡ self.old.processes }
    {
        note_stand(&mut self.stands, row);
        note_arrival(&mut self.arrivals, row);
    }

    // Whether the row goes on before all have arrived: its process stands at a barrier that has fewer rows than there are processes.
    #[tactic(auto, unfolding(crate::specs::Tables::held_by))]
    pub fn is_held(&self, row: Row) -> bool
        ensures { result ≡ held_by self.now.stands self.now.arrivals self.now.processes row }
    {
        let stand = self.stands.get(row.process as usize).copied().unwrap_or(0);
        stand != 0 && arrivals_at(&self.arrivals, stand - 1) < self.processes
    }

    // Whether the row is out of turn: it goes on before all have arrived, or it is of a barrier that has all its rows.
    #[tactic(auto, unfolding(crate::specs::Tables::out_by))]
    fn is_out(&self, row: Row) -> bool
        ensures { result ≡ out_by self.now.stands self.now.arrivals self.now.processes row }
    {
        self.is_held(row)
            || is_barrier(row) && self.processes <= arrivals_at(&self.arrivals, row.message)
    }

    // Answers the number of the first of n rows that is out of turn; where none is, every row is noted.
    #[tactic(auto, unfolding(crate::specs::Tables::first_out_by, crate::specs::Tables::arrivals_after))]
    fn first_out(&mut self, rows: &[u32], n: u32) -> Option<u32>
        ensures answer { AtPlace (first_out_by self.old.stands self.old.arrivals self.old.processes 0 (rows_in n rows.now)) result }
        ensures left { result ≡ None → self.new.arrivals ≡ arrivals_after self.old.arrivals (rows_in n rows.now) }
        ensures processes { self.new.processes ≡ self.old.processes }
    {
        // The row's number counts from 1 and has 32 bits, which `enumerate` has not.
        let mut number = 0;
        for row in rows::first_rows(rows, n as usize) {
            number += 1;
            if self.is_out(row) {
                return Some(number);
            }
            self.note(row);
        }
        None
    }

    // Whether one of the first n rows is of a barrier that is unfinished.
    #[tactic(auto, unfolding(rows::specs::Tests::any))]
    fn is_unfinished(&self, rows: &[u32], n: usize) -> bool
        ensures { result ≡ any (unfinished_by self.now.arrivals self.now.processes) (rows_in n rows.now) }
    {
        for row in rows::first_rows(rows, n) {
            if self.is_of_unfinished(row) {
                return true;
            }
        }
        false
    }

    // Whether a row is of a barrier that is unfinished.
    fn is_of_unfinished(&self, row: Row) -> bool
        ensures { result ≡ unfinished_by self.now.arrivals self.now.processes row }
    {
        is_barrier(row) && arrivals_at(&self.arrivals, row.message) < self.processes
    }
}

// Notes the barrier at which the row's process stands behind the row. A process past the table changes nothing.
fn note_stand(stands: &mut [u32], row: Row)
    ensures { stands.new ≡ noted_stand stands.old row }
{
    // By its index: of an element that was lent by `get_mut` a proof keeps nothing.
    let p = row.process as usize;
    if p < stands.len() {
        stands[p] = stand_of(row);
    }
}

// Answers the barrier at which the row's process stands behind the row, plus one, and 0 where the row is of no barrier. A number past the largest
// is of no barrier.
fn stand_of(row: Row) -> u32
    ensures { result ≡ stand_of row }
{
    if is_barrier(row) && row.message < rows::MESSAGES {
        row.message + 1
    } else {
        0
    }
}

// Notes one row more of the row's barrier. A row of no barrier, or of one past the table, changes nothing.
#[tactic(auto, unfolding(crate::specs::Tables::noted_arrival))]
fn note_arrival(arrivals: &mut [u8], row: Row)
    ensures { arrivals.new ≡ noted_arrival arrivals.old row }
{
    let m = row.message as usize;
    if is_barrier(row) && m < arrivals.len() {
        arrivals[m] = one_more(arrivals[m]);
    }
}

// Answers one more than a number that is less than the largest process limit, and any other number as it is.
fn one_more(n: u8) -> u8
    ensures { result ≡ one_more n }
{
    if u32::from(n) < rows::PROCESSES {
        n + 1
    } else {
        n
    }
}

// Answers how many rows a barrier has. A barrier past the table has none.
fn arrivals_at(arrivals: &[u8], number: u32) -> u32
    ensures { result ≡ get_or arrivals.now number 0 }
{
    u32::from(arrivals.get(number as usize).copied().unwrap_or(0))
}
