// One or two maps of a slice that has several, by their numbers. The clauses on two lawful maps stay with the functions: a type over the `&mut` slice
// would hold it anew behind each write.
#![tactic(auto)]

ghost use Rattle.std.specs.Prelude.{ℕ, ◌+◌, ◌*◌, ◌-◌, ◌≤◌, ◌<◌, ◌≡◌, true, ◌⊎◌, length, leb, ltb};
ghost use Rattle.extents_meaning.specs.Cells.{number_in, overwrite, as_published, refreshed};
ghost use Rattle.extents_meaning.specs.Runs.{runs_from, runs_of, pieces_of};
ghost use Rattle.extents_meaning.specs.Maps.{map_for, runs, bytes_of, lawful, map_at, with_map, listed_in};
ghost use Rattle.extents_map.specs.Mixes.{mix, mix_in, mix_for, makes_map};
ghost use Rattle.extents_meaning.specs.Pairs.{two_maps};
ghost use Rattle.extents_pair.specs.InPairs.{two_maps_in, view_in, below_in, OwnCounted};
ghost use Rattle.extents_pair.specs.Marks.{marked};
ghost use Rattle.rows.specs.Limits.{OFFSET_MAX, ROWS};

use extents_map::locate::LawfulMap;
use extents_map::modes::{Mode, Range, ReadFresh, Refresh};
use extents_map::scan;

// A view and the published map: two maps of one space by their numbers in a slice, and how many runs of the view are unpublished. What functions
// ask of it stands in their clauses: as facts of a type it would be no plainer, since the type would hold the lent slice, anew behind each write.
#[derive(Clone, Copy, Debug, PartialEq, Eq, Hash)]
pub struct Pair {
    pub space: usize,
    pub view: usize,
    pub below: usize,
    pub own: usize,
}

// Do two lawful maps stand at two places of a slice, the second one published?
pub fn two_maps(maps: &[u32], space: usize, view: usize, below: usize) -> bool
    ensures { result ≡ two_maps space view below maps.now }
{
    if view == below {
        return false;
    }
    if !has_map(maps, space, view) {
        return false;
    }
    if !has_map(maps, space, below) {
        return false;
    }
    if !scan::is_lawful(map_at(maps, space, view)) {
        return false;
    }
    scan::is_published(map_at(maps, space, below))
}

// Is the slice long enough for map k?
fn has_map(maps: &[u32], space: usize, k: usize) -> bool
    ensures { result ≡ leb ((k + 1) * (4 * space)) (length maps.now) }
{
    if space == 0 {
        return true;
    }
    if maps.len() / 4 < space {
        return false;
    }
    k < maps.len() / (4 * space)
}

// Map k of a slice that is long enough for it.
fn map_at(maps: &[u32], space: usize, k: usize) -> &[u32]
    requires { (k + 1) * (4 * space) ≤ length maps.now }
    ensures { result.now ≡ map_at space k maps.now }
{
    let size = 4 * space;
    let at = k * size;
    &maps[at..at + size]
}

// How many runs a mix of a view, the published map and a range has from one byte to another.
fn count<M: Mode>(maps: &[u32], pair: Pair, range: Range, from: u32, to: u32) -> usize
    requires lawful_maps { two_maps_in pair maps.now ≡ true }
    requires rising { (from ≤ to) × (range.start ≤ range.end) }
    ensures { result ≡ length (runs_from (to - from) from (mix_in (mix_for M.meaning range) (view_in pair maps.now) (below_in pair maps.now))) }
{
    let view = LawfulMap {
        numbers: map_at(maps, pair.space, pair.view),
    };
    let below = LawfulMap {
        numbers: map_at(maps, pair.space, pair.below),
    };
    scan::count::<M>(view, below, range, from, to)
}

// How many runs of map k are unpublished.
pub fn own_runs(maps: &[u32], space: usize, k: usize) -> usize
    requires map_inside { (k + 1) * (4 * space) ≤ length maps.now }
    requires lawful_maps { lawful (map_at space k maps.now) ≡ true }
    ensures { result ≡ length (marked (runs (map_at space k maps.now))) }
{
    let map = LawfulMap {
        numbers: map_at(maps, space, k),
    };
    marked_in(map)
}

// Does a mix of a view, the published map and a range fit a map's space? The walk counts its runs only where the most that there can be are too
// many.
pub fn fits<M: Mode>(maps: &[u32], pair: Pair, range: Range) -> bool
    requires lawful_maps { two_maps_in pair maps.now ≡ true }
    requires known_mode { (makes_map M.meaning ≡ true) × (range.start ≤ range.end) × OwnCounted pair maps.now }
    ensures { result ≡ leb (length (runs_from (OFFSET_MAX - 0) 0 (mix_in (mix_for M.meaning range)
        (view_in pair maps.now) (below_in pair maps.now)))) pair.space }
{
    if most_runs::<M>(maps, pair) <= pair.space {
        return true;
    }
    count::<M>(maps, pair, range, 0, rows::OFFSET_MAX) <= pair.space
}

// Room for the runs of a mix of a view, the published map and any range that fits a map's space: no more than the most that there can be.
pub fn room<M: Mode>(maps: &[u32], pair: Pair) -> usize
    requires { (two_maps_in pair maps.now ≡ true) × (makes_map M.meaning ≡ true) × OwnCounted pair maps.now }
    ensures within { result ≤ pair.space }
    ensures fitting_runs { (start n cell : ℕ) → (let runs = length (runs_of (mix M.meaning start n cell
        (view_in pair maps.now) (below_in pair maps.now))) in runs ≤ pair.space → runs ≤ result) }
{
    most_runs::<M>(maps, pair).min(pair.space)
}

// The most runs that a mix of a view, the published map and any range can have.
fn most_runs<M: Mode>(maps: &[u32], pair: Pair) -> usize
    requires { (two_maps_in pair maps.now ≡ true) × (makes_map M.meaning ≡ true) × OwnCounted pair maps.now }
    ensures { (start n cell : ℕ) → length (runs_of (mix M.meaning start n cell
        (view_in pair maps.now) (below_in pair maps.now))) ≤ result }
{
    if M::NEEDS_VIEW_ALONE {
        let view = LawfulMap {
            numbers: map_at(maps, pair.space, pair.view),
        };
        return view.runs_in() + 2;
    }
    let below = LawfulMap {
        numbers: map_at(maps, pair.space, pair.below),
    };
    below.runs_in() + 2 * pair.own + 2
}

// Has a range of a view more pieces after a refresh than there is room for? A range has at most two for each run, and one more: the walk counts
// them only where the room may lack.
pub fn lacks(maps: &[u32], pair: Pair, from: u32, to: u32, room: usize) -> bool
    requires lawful_maps { two_maps_in pair maps.now ≡ true }
    requires rising { (from ≤ to) × OwnCounted pair maps.now }
    ensures { result ≡ ltb room (length (pieces_of (refreshed
        (view_in pair maps.now) (below_in pair maps.now)) from (to - from))) }
{
    if most_runs::<Refresh>(maps, pair) < room / 2 {
        return false;
    }
    room < count::<ReadFresh>(maps, pair, Range::NONE, from, to)
}

// How many runs of a map are unpublished.
fn marked_in(map: LawfulMap<'_>) -> usize
    ensures { result ≡ length (marked (runs map.entry.numbers.now)) }
{
    let numbers = map.numbers;
    let all = map.runs_in();
    let mut n = 0;
    // By the runs' places: through `as_chunks` such a walk takes longer (extents_map::locate).
    for i in 0..all {
        n += numbers[i * 4 + 3] as usize;
    }
    n
}

// Gives a range of map k a cell, where the map fits then.
pub fn lay(maps: &mut [u32], space: usize, k: usize, start: u32, end: u32, cell: u32)
    requires map_inside { (k + 1) * (4 * space) ≤ length maps.old }
    requires lawful_maps { lawful (map_at space k maps.old) ≡ true }
    requires range_and_cell { (start < end) × ((cell ≡ 0) ⊎ ((1 ≤ number_in cell) × (number_in cell ≤ ROWS))) }
    requires runs_fit { length (runs_of (overwrite start (end - start) cell (bytes_of (map_at space k maps.old)))) ≤ space }
    ensures { maps.new ≡ with_map space k (map_for space (overwrite start (end - start) cell (bytes_of (map_at space k maps.old)))) maps.old }
{
    let size = 4 * space;
    let at = k * size;
    extents_lay::lay(&mut maps[at..at + size], start, end, cell);
}

// Puts the pieces of a range of a map into a slice that has room for them.
pub fn list(maps: &[u32], space: usize, k: usize, from: u32, to: u32, out: &mut [u32]) -> usize
    requires map_inside { (k + 1) * (4 * space) ≤ length maps.now }
    requires lawful_maps { (lawful (map_at space k maps.now) ≡ true) × (from ≤ to) }
    requires list_room { 3 * length (pieces_of (bytes_of (map_at space k maps.now)) from (to - from)) ≤ length out.old }
    ensures answer { result ≡ length (pieces_of (bytes_of (map_at space k maps.now)) from (to - from)) }
    ensures out_after { out.new ≡ listed_in (pieces_of (bytes_of (map_at space k maps.now)) from (to - from)) out.old }
{
    let map = LawfulMap {
        numbers: map_at(maps, space, k),
    };
    extents_map::list::list(map, from, to, out)
}
