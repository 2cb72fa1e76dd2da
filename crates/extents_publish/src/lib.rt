// Publishing the unpublished runs of a view, and a range with a cell of its own, on the published map in the same slice, in place: run by run as long
// as the map fits, and from there on by rewriting the published map. The clauses on two maps stay with the functions, as extents_pair says why.
#![tactic(auto)]

ghost use Rattle.std.specs.Prelude.{◌+◌, ◌*◌, ◌-◌, ◌≤◌, ◌<◌, ◌≡◌, true, false, ◌⊎◌, length};
ghost use Rattle.rows.specs.Limits.{ROWS};
ghost use Rattle.extents_meaning.specs.Cells.{number_in, cell_of, overwrite};
ghost use Rattle.extents_meaning.specs.Runs.{runs_of};
ghost use Rattle.extents_meaning.specs.Maps.{map_for, runs, bytes_of, lawful, with_map, part_at};
ghost use Rattle.extents_map.specs.Beside.{run_no};
ghost use Rattle.extents_map.specs.Mixes as modes;
ghost use Rattle.extents_map.specs.Mixes.{mix};
ghost use Rattle.extents_pair.specs.InPairs.{two_maps_in, view_in, below_in, OwnCounted};
ghost use Rattle.extents_publish.specs.Publishing.{Below, published_in, told_own, Taken, Layable};

use extents_map::locate::LawfulMap;
use extents_map::modes::{Publish, Range};
use extents_pair::Pair;

// Publishes a view and a range of a row number, 0 where the range is empty, on a published map that fits then. Where a run does not fit between the
// others that are laid, the map is rewritten from what it is by then.
pub fn share(maps: &mut [u32], pair: Pair, start: u32, end: u32, number: u32)
    requires lawful_maps { two_maps_in pair maps.old ≡ true }
    requires range_and_number { (start ≤ end) × (start < end → 1 ≤ number) × (number ≤ ROWS) × OwnCounted pair maps.old }
    requires runs_fit { length (runs_of (mix modes.Publish start (end - start) (cell_of number 0) (view_in pair maps.old) (below_in pair maps.old))) ≤ pair.space }
    ensures maps_after { maps.new ≡ with_map pair.space pair.below
        (map_for pair.space (mix modes.Publish start (end - start) (cell_of number 0) (view_in pair maps.old) (below_in pair maps.old))) maps.old }
    ensures lawful_after { (two_maps_in pair maps.new ≡ true) × OwnCounted pair maps.new }
{
    let size = 4 * pair.space;
    let v = pair.view * size;
    let w = pair.below * size;
    let range = Range {
        start,
        end,
        cell: number * 2,
    };
    if lay_all(maps, size, v, w, pair.own, range) {
        return;
    }
    extents_weave::weave::<Publish>(maps, pair, range);
}

// Lays the unpublished runs of a view and then a range on the published map, as long as the map fits. Answers whether all are laid; else each byte
// is as it was or has the view's cell. The loop has laid the unpublished runs before run i, and `left` are left.
fn lay_all(maps: &mut [u32], size: usize, v: usize, w: usize, own: usize, range: Range) -> bool
    requires { Layable size v w own range.cell maps.old }
    ensures below { result ≡ true → Below size w (λ b c. c ≡ overwrite range.start (range.end - range.start) range.cell
        (published_in size v w maps.old) b) maps.old maps.new }
    ensures stopped { result ≡ false → Below size w (λ b c. (c ≡ published_in size v w maps.old b) ⊎ (c ≡ bytes_of (part_at w size maps.old) b))
        maps.old maps.new }
{
    let mut left = own;
    let mut i = 0;
    // No plainer as a `for`: the walk ends behind the last unpublished run, and not at an index that is known before.
    while 0 < left {
        let view = LawfulMap {
            numbers: &maps[v..v + size],
        };
        let laid = own_at(view, i);
        i += 1;
        let Some(run) = laid else {
            continue;
        };
        if !put(maps, size, w, run) {
            return false;
        }
        left -= 1;
    }
    put(maps, size, w, range)
}

// What is laid of run i: its range and its cell without the mark, and nothing where it is published.
fn own_at(map: LawfulMap<'_>, i: usize) -> Option<Range>
    requires { i < length (runs map.numbers.now) }
    ensures { Taken (run_no (runs map.entry.numbers.now) i) (told_own (run_no (runs map.entry.numbers.now) i) result) }
{
    let cell = map.cell_at(i);
    if cell % 2 == 0 {
        return None;
    }
    Some(Range {
        start: map.start_at(i),
        end: map.end_at(i),
        cell: cell - 1,
    })
}

// Gives a range of the map at w a cell, where the map fits then. Answers whether it did; a range without bytes fits.
fn put(maps: &mut [u32], size: usize, w: usize, range: Range) -> bool
    requires part_inside { (w + size ≤ length maps.old) × (lawful (part_at w size maps.old) ≡ true) }
    requires legal_cell { (range.cell ≡ 0) ⊎ ((1 ≤ number_in range.cell) × (number_in range.cell ≤ ROWS)) }
    ensures below { result ≡ true → Below size w (λ b c. c ≡ overwrite range.start (range.end - range.start) range.cell (bytes_of (part_at w size maps.old)) b)
        maps.old maps.new }
    ensures maps_unchanged { result ≡ false → maps.new ≡ maps.old }
{
    if range.end <= range.start {
        return true;
    }
    extents_lay::lay(&mut maps[w..w + size], range.start, range.end, range.cell)
}
