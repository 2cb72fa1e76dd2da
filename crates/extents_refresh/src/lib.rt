// Refreshing a view from the published map, both maps in one slice, and marking the runs of a view published. The clauses on two maps stay with the
// functions, as extents_pair says why.
#![tactic(auto)]

ghost use Rattle.std.specs.Prelude.{◌+◌, ◌*◌, ◌≤◌, ◌<◌, ◌≡◌, true, false, length};
ghost use Rattle.extents_meaning.specs.Cells.{as_published, refreshed};
ghost use Rattle.extents_meaning.specs.Runs.{run_of, runs_of};
ghost use Rattle.extents_meaning.specs.Maps.{map_for, runs, lawful, map_at, with_map};
ghost use Rattle.extents_pair.specs.Marks.{marked};
ghost use Rattle.extents_pair.specs.InPairs.{two_maps_in, view_in, below_in, OwnCounted};
ghost use Rattle.extents_refresh.specs.Clearing.{Apart, Cleared};

use extents_map::locate::LawfulMap;
use extents_map::modes::{MarkPublished, Range, Refresh};
use extents_pair::Pair;

// Refreshes a view that fits then. Without an unpublished run the published map is copied.
pub fn refresh(maps: &mut [u32], pair: Pair)
    requires lawful_maps { (two_maps_in pair maps.old ≡ true) × OwnCounted pair maps.old }
    requires runs_fit { length (runs_of (refreshed (view_in pair maps.old) (below_in pair maps.old))) ≤ pair.space }
    ensures { maps.new ≡ with_map pair.space pair.view
        (map_for pair.space (refreshed (view_in pair maps.old) (below_in pair maps.old))) maps.old }
{
    if pair.own == 0 {
        copy(maps, pair.space, pair.below, pair.view);
        return;
    }
    extents_weave::weave::<Refresh>(maps, pair, Range::NONE);
}

// Marks a view published: marks are cleared in place as long as no neighbour joins, then the map is rewritten.
pub fn mark_published(maps: &mut [u32], pair: Pair)
    requires { (two_maps_in pair maps.old ≡ true) × OwnCounted pair maps.old }
    ensures { maps.new ≡ with_map pair.space pair.view
        (map_for pair.space (as_published (view_in pair maps.old))) maps.old }
{
    let size = 4 * pair.space;
    let v = pair.view * size;
    let left = clear_marks(&mut maps[v..v + size], pair.own);
    if left == 0 {
        return;
    }
    let rest = Pair { own: left, ..pair };
    extents_weave::weave::<MarkPublished>(maps, rest, Range::NONE);
}

// Clears the marks of the `own` unpublished runs of a map from the front, up to the first that would join a neighbour, and answers how many are left.
fn clear_marks(map: &mut [u32], own: usize) -> usize
    requires { (lawful map.old ≡ true) × (own ≡ length (marked (runs map.old))) }
    ensures { Cleared map.old result map.new }
{
    let mut left = own;
    let mut i = 0;
    // No plainer as a `for`: the walk ends behind the last unpublished run, and not at an index that is known before.
    while 0 < left {
        let at = i * 4 + 3;
        let next = i + 1;
        if map[at] == 1 {
            let read = LawfulMap { numbers: &*map };
            if meets(read, i) || meets(read, next) {
                return left;
            }
            map[at] = 0;
            left -= 1;
        }
        i = next;
    }
    left
}

// Does run i, if there is one, follow the run before it at once, with the same row?
fn meets(map: LawfulMap<'_>, i: usize) -> bool
    ensures { result ≡ false → i < length (runs map.entry.numbers.now) → Apart (run_of 0 0 0) (runs map.entry.numbers.now) i }
{
    let numbers = map.numbers;
    if i == 0 {
        return false;
    }
    if numbers.len() / 4 <= i {
        return false;
    }
    if numbers[i * 4 + 1] == 0 {
        return false;
    }
    let last = i - 1;
    if map.end_at(last) != map.start_at(i) {
        return false;
    }
    map.cell_at(last) / 2 == map.cell_at(i) / 2
}

// Copies map j to the place of map k, as far as one of them has runs.
pub fn copy(maps: &mut [u32], space: usize, j: usize, k: usize)
    requires map_inside { ((j + 1) * (4 * space) ≤ length maps.old) × ((k + 1) * (4 * space) ≤ length maps.old) × (j ≡ k → ⊥) }
    requires lawful_maps { (lawful (map_at space j maps.old) ≡ true) × (lawful (map_at space k maps.old) ≡ true) }
    ensures { maps.new ≡ with_map space k (map_at space j maps.old) maps.old }
{
    let size = 4 * space;
    let from = j * size;
    let to = k * size;
    let source = LawfulMap {
        numbers: &maps[from..from + size],
    };
    let target = LawfulMap {
        numbers: &maps[to..to + size],
    };
    let there = source.runs_in();
    let here = target.runs_in();
    let end = there.max(here) * 4;
    maps.copy_within(from..from + end, to);
}
