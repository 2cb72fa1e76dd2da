// Giving a range of a map a cell, in place.
#![tactic(auto)]

ghost use Rattle.std.specs.Prelude.{ℕ, ◌+◌, ◌*◌, ◌-◌, ◌/◌, ◌%◌, ◌≤◌, ◌<◌, min, ◌≡◌, true, cond, ◌⊎◌, List, ◌++◌, length, length as size_of, take, drop, set, replicate, leb};
ghost use Rattle.std.proofs.Math.Seq.{slice};
ghost use Rattle.extents_meaning.specs.Cells.{number_in, overwrite};
ghost use Rattle.extents_meaning.specs.Runs.{Run, runs_of};
ghost use Rattle.extents_meaning.specs.Maps.{fours, map_for, space_in, runs, bytes_of, lawful};
ghost use Rattle.extents_map.specs.Cursors.{part_of};
ghost use Rattle.extents_map.specs.Beside.{end_of, run_before, side_of, Met, Behind, Front, Back};
ghost use Rattle.rows.specs.Limits.{ROWS};

use extents_map::locate::{LawfulMap, Side};

// Gives a range a cell, 0 to clear the range, where the new map fits its space. Answers whether the new map fits.
pub fn lay(map: &mut [u32], start: u32, end: u32, cell: u32) -> bool
    requires lawful_map { (lawful map.old ≡ true) × (start < end) }
    requires legal_cell { (cell ≡ 0) ⊎ ((1 ≤ number_in cell) × (number_in cell ≤ ROWS)) }
    ensures answer { result ≡ leb (length (runs_of (overwrite start (end - start) cell (bytes_of map.old)))) (space_in map.old) }
    ensures map_after { map.new ≡ cond result (map_for (space_in map.old) (overwrite start (end - start) cell (bytes_of map.old))) map.old }
{
    let read = LawfulMap { numbers: &*map };
    let all = read.runs_in();
    let first = first_met(read, all, start, cell);
    let behind = first_behind(read, all, first, end, cell);
    let left = left_side(read, all, first, start, cell);
    let right = right_side(read, first, behind, end, cell);
    let middle = middle_length(left.bound, right.bound, cell);
    let to = first + count_parts(left, middle, right);
    if map.len() / 4 < to + (all - behind) {
        return false;
    }
    move_to(map, behind * 4, all * 4, to * 4);
    let second = put_part(map, first, left.start, left.length, left.cell);
    let third = put_part(map, second, left.bound, middle, cell);
    put_part(map, third, right.start, right.length, right.cell);
    true
}

// The first run that a range from `start` on meets: a run that ends behind the start, or at the start with the range's cell.
fn first_met(map: LawfulMap<'_>, all: usize, start: u32, cell: u32) -> usize
    requires { all ≡ length (runs map.numbers.now) }
    ensures { Met (runs map.entry.numbers.now) start cell result }
{
    let i = map.first_past_among(all, start);
    if i == 0 {
        return 0;
    }
    let last = i - 1;
    if map.end_at(last) == start && map.cell_at(last) == cell {
        return last;
    }
    i
}

// The first run from `first` on that a range up to `end` does not meet.
fn first_behind(map: LawfulMap<'_>, all: usize, first: usize, end: u32, cell: u32) -> usize
    requires { (all ≡ length (runs map.numbers.now)) × (first ≤ all) }
    ensures { Behind (runs map.entry.numbers.now) first end cell result }
{
    for i in first..all {
        let start = map.start_at(i);
        if end < start {
            return i;
        }
        if end == start && map.cell_at(i) != cell {
            return i;
        }
    }
    all
}

// What stays of the first run met, before the range; a part of the same cell joins the range.
fn left_side(map: LawfulMap<'_>, all: usize, first: usize, start: u32, cell: u32) -> Side
    requires { (all ≡ length (runs map.numbers.now)) × Met (runs map.numbers.now) start cell first }
    ensures { Front (runs map.entry.numbers.now) start cell (take first (runs map.entry.numbers.now) ++ side_of result) result.bound }
{
    if first == all {
        return Side {
            bound: start,
            ..Side::NONE
        };
    }
    let from = map.start_at(first);
    if start <= from {
        return Side {
            bound: start,
            ..Side::NONE
        };
    }
    let value = map.cell_at(first);
    if value == cell {
        return Side {
            bound: from,
            ..Side::NONE
        };
    }
    Side {
        start: from,
        length: start - from,
        cell: value,
        bound: start,
    }
}

// What stays of the last run met, behind the range.
fn right_side(map: LawfulMap<'_>, first: usize, behind: usize, end: u32, cell: u32) -> Side
    requires { Behind (runs map.numbers.now) first end cell behind × (end_of (run_before (runs map.numbers.now) first) ≤ end) }
    ensures { Back (runs map.entry.numbers.now) end cell (side_of result ++ drop behind (runs map.entry.numbers.now)) result.bound }
{
    if behind <= first {
        return Side {
            bound: end,
            ..Side::NONE
        };
    }
    let last = behind - 1;
    let to = map.end_at(last);
    if to <= end {
        return Side {
            bound: end,
            ..Side::NONE
        };
    }
    let value = map.cell_at(last);
    if value == cell {
        return Side {
            bound: to,
            ..Side::NONE
        };
    }
    Side {
        start: end,
        length: to - end,
        cell: value,
        bound: end,
    }
}

// A range of cell 0 leaves no run.
fn middle_length(from: u32, to: u32, cell: u32) -> u32
    requires { from ≤ to }
    ensures cleared { cell ≡ 0 → result ≡ 0 }
    ensures covered { 1 ≤ cell → result ≡ to - from }
{
    if cell == 0 {
        return 0;
    }
    to - from
}

// How many runs the parts of a range are: what stays before it, the range, and what stays behind it.
fn count_parts(left: Side, middle: u32, right: Side) -> usize
    ensures { result ≡ min left.length 1 + min middle 1 + min right.length 1 }
{
    (left.length.min(1) + middle.min(1) + right.length.min(1)) as usize
}

// Moves the numbers from `from` to `end` to the place `to`, and puts 0 behind them as far as numbers stood. Behind `end` all is 0.
fn move_to(map: &mut [u32], from: usize, end: usize, to: usize)
    requires move_inside { (from ≤ end) × (end ≤ length map.old) × (to + (end - from) ≤ length map.old) }
    requires zeros_behind { drop end map.old ≡ replicate (length map.old - end) 0 }
    ensures { map.new ≡ take to map.old
        ++ (take (end - from) (drop from map.old) ++ replicate (length map.old - to - (end - from)) 0) }
{
    if from == to {
        return;
    }
    map.copy_within(from..end, to);
    if to < from {
        clear_between(map, to + (end - from), end);
    }
}

// Moves the numbers from `from` to `end` up by some places.
pub fn move_up(map: &mut [u32], from: usize, end: usize, by: usize)
    requires { (from ≤ end) × (end + by ≤ length map.old) }
    ensures { map.new ≡ take (from + by) map.old
        ++ (slice from end map.old ++ drop (end + by) map.old) }
{
    map.copy_within(from..end, from + by);
}

// Puts 0 from a place up to another.
pub fn clear_between(map: &mut [u32], from: usize, to: usize)
    requires { (from ≤ to) × (to ≤ length map.old) }
    ensures { map.new ≡ (take from map.old ++ replicate (to - from) 0) ++ drop to map.old }
{
    map[from..to].fill(0);
}

// Puts a run behind the first i runs, if the run has a length, and answers the place behind.
fn put_part(map: &mut [u32], i: usize, start: u32, length: u32, cell: u32) -> usize
    requires { 4 * (i + min length 1) ≤ size_of map.old }
    ensures answer { result ≡ i + min length 1 }
    ensures runs_put { ((ps : List Run) → take (4 * i) map.old ≡ fours ps → take (4 * result) map.new ≡ fours (ps ++ part_of start length cell))
        × ((k : ℕ) → result ≤ k → drop (4 * k) map.new ≡ drop (4 * k) map.old) }
{
    if length == 0 {
        return i;
    }
    rows::put_group(map, i, [start, length, cell / 2, cell % 2]);
    i + 1
}

// Stores the four numbers of a run from a place on. It stays beside `rows::put_group`, whose tests of the room took a listing over 1.1 times its
// instructions: a rewrite puts each of its runs here.
pub fn put_run(map: &mut [u32], at: usize, start: u32, length: u32, cell: u32)
    requires { (at < size_of map.old) × (at + 1 < size_of map.old) × (at + 2 < size_of map.old) × (at + 3 < size_of map.old) }
    ensures { map.new
        ≡ set (set (set (set map.old at start) (at + 1) length) (at + 2) (cell / 2)) (at + 3) (cell % 2) }
{
    map[at..at + 4].copy_from_slice(&[start, length, cell / 2, cell % 2]);
}
