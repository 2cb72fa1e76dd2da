// Places of the runs of a map: how many runs there are, the numbers of one, and the first that ends behind a byte.
ghost use Rattle.std.specs.Prelude.{◌+◌, ◌*◌, ◌≤◌, ◌<◌, ◌≡◌, ◌↔◌, true, length, get_or, IsSome, IfSome};
ghost use Rattle.rows.specs.Limits.{OFFSET_MAX};
ghost use Rattle.extents_meaning.specs.Cells.{cell_of};
ghost use Rattle.extents_meaning.specs.Maps.{runs, lawful};
ghost use Rattle.extents_map.specs.Beside.{end_of, run_no, run_before};
ghost use Rattle.extents_map.specs.Cursors.{Passing};

use crate::scan;

// The part of a run that stays beside a range: its start, its length and its cell; and where the range then ends on this side. It is no Option: a
// length of 0 is no part, as `side_of` says.
#[derive(Clone, Copy, Debug, PartialEq, Eq, Hash)]
pub struct Side {
    pub start: u32,
    pub length: u32,
    pub cell: u32,
    pub bound: u32,
}

impl Side {
    // No part of a run.
    pub const NONE: Side = Side {
        start: 0,
        length: 0,
        cell: 0,
        bound: 0,
    };
}

// The four numbers of a run.
#[derive(Clone, Copy, Debug, PartialEq, Eq, Hash)]
pub(crate) struct Run {
    pub start: u32,
    pub length: u32,
    pub number: u32,
    pub mark: u32,
}

impl Run {
    // The byte behind the run.
    pub(crate) fn end(self) -> u32
        requires { self.start + self.length ≤ OFFSET_MAX }
        ensures { result ≡ self.start + self.length }
    {
        self.start + self.length
    }

    // The run's cell.
    pub(crate) fn cell(self) -> u32
        requires { cell_of self.number self.mark ≤ OFFSET_MAX }
        ensures { result ≡ cell_of self.number self.mark }
    {
        self.number * 2 + self.mark
    }
}

// The run at place i of a slice.
pub(crate) fn run_at(map: &[u32], i: usize) -> Run
    requires { 4 * i + 4 ≤ length map.now }
    ensures start { result.start ≡ get_or map.now (4 * i) 0 }
    ensures length { result.length ≡ get_or map.now (4 * i + 1) 0 }
    ensures number { result.number ≡ get_or map.now (4 * i + 2) 0 }
    ensures mark { result.mark ≡ get_or map.now (4 * i + 3) 0 }
{
    // Four numbers by their places: through `as_chunks` a walk over runs takes 1.47 times as long.
    let at = 4 * i;
    Run {
        start: map[at],
        length: map[at + 1],
        number: map[at + 2],
        mark: map[at + 3],
    }
}

// A lawful map that is lent to be read.
#[derive(Clone, Copy)]
pub struct LawfulMap<'a> {
    pub numbers: &'a [u32],
    ghost lawful: { lawful numbers.now ≡ true },
}

impl<'a> LawfulMap<'a> {
    // The map that a slice holds, none where it holds no lawful one.
    pub fn of(numbers: &'a [u32]) -> Option<LawfulMap<'a>>
        ensures tested { IsSome result ↔ (lawful numbers.now ≡ true) }
        ensures same { IfSome result (λ map. map.numbers.now ≡ numbers.now) }
    {
        if scan::is_lawful(numbers) {
            Some(LawfulMap { numbers })
        } else {
            None
        }
    }

    // How many runs the map has.
    pub fn runs_in(self) -> usize
        ensures { result ≡ length (runs self.entry.numbers.now) }
    {
        let numbers = self.numbers;
        let (quads, _) = numbers.as_chunks::<4>();
        quads.partition_point(|run| run[1] != 0)
    }

    // Where run i starts.
    pub fn start_at(self, i: usize) -> u32
        requires { i < length (runs self.numbers.now) }
        ensures { result ≡ (run_no (runs self.entry.numbers.now) i).start }
    {
        run_at(self.numbers, i).start
    }

    // Where run i ends.
    pub fn end_at(self, i: usize) -> u32
        requires { i < length (runs self.numbers.now) }
        ensures { result ≡ end_of (run_no (runs self.entry.numbers.now) i) }
    {
        run_at(self.numbers, i).end()
    }

    // The cell of run i.
    pub fn cell_at(self, i: usize) -> u32
        requires { i < length (runs self.numbers.now) }
        ensures { result ≡ (run_no (runs self.entry.numbers.now) i).cell }
    {
        run_at(self.numbers, i).cell()
    }

    // The first run that ends behind byte x.
    pub fn first_past(self, x: u32) -> usize
        ensures within { result ≤ length (runs self.entry.numbers.now) }
        ensures passed { end_of (run_before (runs self.entry.numbers.now) result) ≤ x }
        ensures not_passed { result < length (runs self.entry.numbers.now)
            → x < end_of (run_no (runs self.entry.numbers.now) result) }
    {
        let numbers = self.numbers;
        let (quads, _) = numbers.as_chunks::<4>();
        quads.partition_point(|run| {
            run[1] != 0 && u64::from(run[0]) + u64::from(run[1]) <= u64::from(x)
        })
    }

    // The first run that ends behind byte x, looked for among the runs alone: `all` is how many there are.
    pub fn first_past_among(self, all: usize, x: u32) -> usize
        requires { all ≡ length (runs self.numbers.now) }
        ensures within { result ≤ all }
        ensures passed { end_of (run_before (runs self.entry.numbers.now) result) ≤ x }
        ensures not_passed { result < all → x < end_of (run_no (runs self.entry.numbers.now) result) }
    {
        let numbers = self.numbers;
        let (quads, _) = numbers.as_chunks::<4>();
        quads[..all].partition_point(|run| u64::from(run[0]) + u64::from(run[1]) <= u64::from(x))
    }

    // A run from which `scan::see` may look for byte x: all runs before it end at x or before.
    pub fn seek(self, x: u32) -> usize
        ensures { Passing self.entry.numbers.now 0 x result }
    {
        self.first_past(x)
    }
}
