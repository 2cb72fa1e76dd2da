// Reading maps: whether a map is lawful, which cell a byte has, and how many runs a mix of two maps has.
ghost use Rattle.std.specs.Prelude.{◌-◌, ◌≤◌, ◌≡◌, cond, not, ◌&&◌, length, eqb};
ghost use Rattle.extents_meaning.specs.Cells.{number_in, mark_in, in_range};
ghost use Rattle.extents_meaning.specs.Runs.{runs_from};
ghost use Rattle.extents_meaning.specs.Maps.{runs, bytes_of, all_zero, follows, lawful, no_marks, lawful_published};
ghost use Rattle.extents_map.specs.Mixes.{mix_in, mix_for};
ghost use Rattle.extents_map.specs.Cursors.{Part, Passing, Looked, edge_of, BothLooked};

use crate::locate;
use crate::locate::{LawfulMap, Run};
use crate::modes::{Mode, Range};

// The cell of a byte, the next byte that has another, and the run to go on from: the first that does not end at the byte or before.
#[derive(Clone, Copy, Debug, PartialEq, Eq, Hash)]
pub struct Look {
    pub cell: u32,
    pub next: u32,
    pub at: usize,
}

// Does the map hold longest runs in rising order, with row numbers 1 to 4,096 and marks 0 or 1, and then 0?
pub fn is_lawful(map: &[u32]) -> bool
    ensures { result ≡ lawful map.now }
{
    if map.len() % 4 != 0 {
        return false;
    }
    let space = map.len() / 4;
    let mut end = 0;
    let mut cell = 0;
    // By the runs' places: `locate::run_at` says why.
    for i in 0..space {
        let run = locate::run_at(map, i);
        if run.length == 0 {
            return is_zero(&map[4 * i..]);
        }
        if !may_follow(end, cell, run) {
            return false;
        }
        end = run.end();
        cell = run.cell();
    }
    true
}

// Are all numbers 0? The loop gathers their bits.
fn is_zero(numbers: &[u32]) -> bool
    ensures { result ≡ all_zero numbers.now }
{
    let mut bits = 0;
    for number in numbers {
        bits |= *number;
    }
    bits == 0
}

// May a run follow one that ends at `end` with the cell `cell`?
fn may_follow(end: u32, cell: u32, run: Run) -> bool
    ensures { result ≡ follows end cell run.start run.length run.number run.mark }
{
    end <= run.start
        && run.length <= rows::OFFSET_MAX - run.start
        && 1 <= run.number
        && run.number <= rows::ROWS
        && run.mark <= 1
        && (run.start != end || run.cell() != cell)
}

// Is the map lawful, with every mark 0?
pub fn is_published(map: &[u32]) -> bool
    ensures { result ≡ lawful_published map.now }
{
    if !is_lawful(map) {
        return false;
    }
    has_no_marks(map)
}

// Is every mark of a map 0?
fn has_no_marks(map: &[u32]) -> bool
    ensures { result ≡ no_marks (runs map.now) }
{
    // By the runs' places, as in is_lawful.
    for i in 0..map.len() / 4 {
        let run = locate::run_at(map, i);
        if run.length == 0 {
            return true;
        }
        if run.mark % 2 == 1 {
            return false;
        }
    }
    true
}

// What stands at byte x by the runs from run `from` on.
pub fn see(map: &[u32], from: usize, x: u32) -> Look
    requires { Part map.now from x }
    ensures { Looked map.now from x result }
{
    let space = map.len() / 4;
    // By the runs' places, as in is_lawful.
    for i in from..space {
        let run = locate::run_at(map, i);
        if run.length == 0 {
            return Look {
                cell: 0,
                next: rows::OFFSET_MAX,
                at: i,
            };
        }
        if x < run.start {
            return Look {
                cell: 0,
                next: run.start,
                at: i,
            };
        }
        if x - run.start < run.length {
            return Look {
                cell: run.cell(),
                next: run.end(),
                at: i,
            };
        }
    }
    Look {
        cell: 0,
        next: rows::OFFSET_MAX,
        at: space,
    }
}

// The row number of a cell.
pub fn number_in(cell: u32) -> u32
    ensures { result ≡ number_in cell }
{
    cell / 2
}

// The mark of a cell.
pub fn mark_in(cell: u32) -> u32
    ensures { result ≡ mark_in cell }
{
    cell % 2
}

// What two maps and a range have at a byte, the next byte at which one of them changes, and the runs to go on from.
#[derive(Clone, Copy, Debug, PartialEq, Eq, Hash)]
pub struct Both {
    pub cell: u32,
    pub other: u32,
    pub inside: bool,
    pub next: u32,
    pub i: usize,
    pub j: usize,
}

// What a map from run i on, another one from run j on and a range have at byte x. Every walk over two maps goes by it.
pub fn see_both(map: &[u32], i: usize, other: &[u32], j: usize, range: Range, x: u32) -> Both
    requires { Part map.now i x × Part other.now j x × (range.start ≤ range.end) }
    ensures { BothLooked map.now i other.now j range x result }
{
    let v = see(map, i, x);
    let w = see(other, j, x);
    Both {
        cell: v.cell,
        other: w.cell,
        inside: is_inside(range.start, range.end, x),
        next: v.next.min(w.next).min(edge(range.start, range.end, x)),
        i: v.at,
        j: w.at,
    }
}

// How many runs a mix of two maps has from one byte to another.
pub fn count<M: Mode>(
    map: LawfulMap<'_>,
    below: LawfulMap<'_>,
    range: Range,
    from: u32,
    to: u32,
) -> usize
    requires rising { (from ≤ to) × (range.start ≤ range.end) }
    ensures { result ≡ length (runs_from (to - from) from (mix_in (mix_for M.meaning range) (bytes_of map.entry.numbers.now) (bytes_of below.entry.numbers.now))) }
{
    let mut x = from;
    let mut n = 0;
    let mut last = 0;
    let mut i = map.seek(from);
    let mut j = below.seek(from);
    // No `for`: each step goes to the next byte at which a map or the range changes.
    while x < to {
        let s = see_both(map.numbers, i, below.numbers, j, range, x);
        let here = M::mixed(s.inside, range.cell, s.cell, s.other);
        n += begins(here, last);
        last = here;
        i = s.i;
        j = s.j;
        x = s.next.min(to);
    }
    n
}

// 1 where a cell is neither 0 nor the cell of the byte before, else 0.
fn begins(here: u32, last: u32) -> usize
    ensures { result ≡ cond (not (eqb here 0) && not (eqb here last)) 1 0 }
{
    usize::from(here != 0 && here != last)
}

// Does byte x lie in a range?
fn is_inside(start: u32, end: u32, x: u32) -> bool
    requires { start ≤ end }
    ensures { result ≡ in_range start (end - start) x }
{
    start <= x && x < end
}

// The next byte behind x at which a range starts or ends, the end of all bytes where there is none.
fn edge(start: u32, end: u32, x: u32) -> u32
    ensures { result ≡ edge_of start end x }
{
    if x < start {
        return start;
    }
    if x < end {
        return end;
    }
    rows::OFFSET_MAX
}
