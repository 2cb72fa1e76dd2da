// Rewriting a map in place: each byte of a target map gets the cell that a mix makes of it and of another map's cell at the byte. No room but the
// map's own is used. A first walk keeps of the target what the result needs; the kept runs move up to the place behind which all is 0; a second walk
// reads them there and writes the result's runs from the front. The clauses on two maps stay with the functions, as extents_pair says why.
#![tactic(auto)]

ghost use Rattle.std.specs.Prelude.{◌+◌, ◌*◌, ◌/◌, ◌≤◌, ◌≡◌, Bool, true, false, length};
ghost use Rattle.extents_meaning.specs.Runs.{runs_of};
ghost use Rattle.extents_meaning.specs.Maps.{map_for, with_part, with_map};
ghost use Rattle.extents_map.specs.Cursors.{Part};
ghost use Rattle.extents_map.specs.Mixes.{makes_map, mix_in, mix_for, becomes as Mixes·becomes};
ghost use Rattle.extents_pair.specs.InPairs.{two_maps_in, view_in, below_in, OwnCounted};
ghost use Rattle.extents_weave.specs.Turns.{Turned, turned_map};
ghost use Rattle.extents_weave.specs.Steps.{Stepped};
ghost use Rattle.extents_weave.specs.Rewrites.{Ready, Rewritten, Weavable, woven_in, target_in};

use extents_map::locate::LawfulMap;
use extents_map::modes::{Mode, Range};
use extents_map::scan;
use extents_pair::Pair;

// The runs written so far, and a run in hand: from a start to an end, of a cell, none where the cell is 0. No plainer with an `Option`: a cell 0
// is a byte without a run in every definition, so that none in hand is the cell of the bytes before.
#[derive(Clone, Copy, Debug, PartialEq, Eq, Hash)]
struct Hand {
    written: usize,
    start: u32,
    end: u32,
    cell: u32,
}

// What a walk writes at a byte, whether the byte needs it, the next byte at which that changes, and the runs to go on from.
#[derive(Clone, Copy, Debug, PartialEq, Eq, Hash)]
struct Step {
    cell: u32,
    need: bool,
    next: u32,
    i: usize,
    j: usize,
}

// One of the two walks of a rewrite.
trait Walk {
    ghost KEEPS: { Bool };

    // Whether the walk writes the cells that the result needs of the target, and not the results.
    const KEEPS: bool;
}

// The first walk keeps cells of the target.
struct Keeping;

impl Walk for Keeping {
    ghost KEEPS = { true };

    const KEEPS: bool = true;
}

// The second walk writes the results.
struct Writing;

impl Walk for Writing {
    ghost KEEPS = { false };

    const KEEPS: bool = false;
}

// Gives every byte of the view, or of the published map where the mode is Publish, the cell that a mix makes of it, where the result fits.
pub fn weave<M: Mode>(maps: &mut [u32], pair: Pair, range: Range)
    requires lawful_maps { (two_maps_in pair maps.old ≡ true) × OwnCounted pair maps.old }
    requires known_mode { (makes_map M.meaning ≡ true) × (range.start ≤ range.end) }
    requires runs_fit { length (runs_of (mix_in (mix_for M.meaning range) (view_in pair maps.old) (below_in pair maps.old))) ≤ pair.space }
    ensures { maps.new ≡ with_map pair.space (target_in (mix_for M.meaning range) pair)
        (map_for pair.space (mix_in (mix_for M.meaning range) (view_in pair maps.old) (below_in pair maps.old))) maps.old }
{
    let room = extents_pair::room::<M>(maps, pair);
    let size = 4 * pair.space;
    let v = pair.view * size;
    let w = pair.below * size;
    if M::WRITES_VIEW {
        weave_map::<M>(maps, size, v, w, range, room);
    } else {
        weave_map::<M>(maps, size, w, v, range, room);
    }
}

// Gives every byte of the map at t the cell that a mix makes of it, where the result has at most `room` runs.
fn weave_map<M: Mode>(maps: &mut [u32], size: usize, t: usize, o: usize, range: Range, room: usize)
    requires { Weavable size t o (mix_for M.meaning range) room maps.old }
    ensures { maps.new ≡ with_part t size (map_for (size / 4) (woven_in size t o (mix_for M.meaning range) maps.old)) maps.old }
{
    let target = LawfulMap {
        numbers: &maps[t..t + size],
    };
    let all = target.runs_in();
    let place = all.max(room);
    let kept = rewrite::<M, Keeping>(maps, size, t, o, 0, range);
    let from = place - kept;
    extents_lay::move_up(&mut maps[t..t + size], 0, kept * 4, from * 4);
    let n = rewrite::<M, Writing>(maps, size, t, o, from, range);
    extents_lay::clear_between(&mut maps[t..t + size], n * 4, place * 4);
}

// Writes runs into the front of the map at t, from its runs from run `from` on and from the map at o: the cells to keep, or the results. The loop
// reads a run before it writes the run's place.
fn rewrite<M: Mode, W: Walk>(
    maps: &mut [u32],
    size: usize,
    t: usize,
    o: usize,
    from: usize,
    range: Range,
) -> usize
    requires { Ready size t o from (mix_for M.meaning range) W.KEEPS maps.old }
    ensures { Rewritten size t o from (mix_for M.meaning range) W.KEEPS maps.old result maps.new }
{
    let mut h = Hand {
        written: 0,
        start: 0,
        end: 0,
        cell: 0,
    };
    let mut i = from;
    let mut j = 0;
    let mut x = 0;
    // Each step goes on to the next byte at which a map or the range changes, so this is no `for`.
    while x < rows::OFFSET_MAX {
        let s = step_at::<M, W>(
            &maps[t..t + size],
            i,
            &maps[o..o + size],
            j,
            range,
            h.cell,
            x,
        );
        h = turn(&mut maps[t..t + size], h, x, s.next, s.cell, s.need);
        i = s.i;
        j = s.j;
        x = s.next;
    }
    let end = turn(&mut maps[t..t + size], h, x, x, 0, true);
    end.written
}

// What a walk writes at byte x: the result, or, of the cell in hand, 0 and the target's cell, the first that gives the result.
fn step_at<M: Mode, W: Walk>(
    map: &[u32],
    i: usize,
    other: &[u32],
    j: usize,
    range: Range,
    hand: u32,
    x: u32,
) -> Step
    requires { Part map.now i x × Part other.now j x × (range.start ≤ range.end) }
    ensures { Stepped map.now i other.now j (mix_for M.meaning range) hand W.KEEPS x result }
{
    let s = scan::see_both(map, i, other, j, range, x);
    let here = becomes::<M>(s.inside, range.cell, s.cell, s.other);
    if !W::KEEPS {
        return Step {
            cell: here,
            need: true,
            next: s.next,
            i: s.i,
            j: s.j,
        };
    }
    let bare = becomes::<M>(s.inside, range.cell, 0, s.other);
    if becomes::<M>(s.inside, range.cell, hand, s.other) == here {
        return Step {
            cell: hand,
            need: bare != here,
            next: s.next,
            i: s.i,
            j: s.j,
        };
    }
    if bare == here {
        return Step {
            cell: 0,
            need: false,
            next: s.next,
            i: s.i,
            j: s.j,
        };
    }
    Step {
        cell: s.cell,
        need: true,
        next: s.next,
        i: s.i,
        j: s.j,
    }
}

// The cell that a byte of the target becomes, in the range or not, from the range's cell, its own and the other map's.
fn becomes<M: Mode>(inside: bool, range_cell: u32, cell: u32, other: u32) -> u32
    ensures { result ≡ Mixes·becomes M.meaning inside range_cell cell other }
{
    if M::WRITES_VIEW {
        M::mixed(inside, range_cell, cell, other)
    } else {
        M::mixed(inside, range_cell, other, cell)
    }
}

// From byte x to byte y the cell is `cell`. The run in hand grows, as far as bytes need it, or is put down and another begins.
fn turn(map: &mut [u32], h: Hand, x: u32, y: u32, cell: u32, need: bool) -> Hand
    requires { (h.start ≤ h.end) × ((cell ≡ h.cell → ⊥) → (h.cell ≡ 0 → ⊥) → 4 * h.written + 4 ≤ length map.old) }
    ensures { Turned h x y cell need result × (map.new ≡ turned_map h cell map.old) }
{
    if cell == h.cell {
        if need {
            return Hand {
                written: h.written,
                start: h.start,
                end: y,
                cell: cell,
            };
        }
        return Hand {
            written: h.written,
            start: h.start,
            end: h.end,
            cell: cell,
        };
    }
    if h.cell == 0 {
        return Hand {
            written: h.written,
            start: x,
            end: y,
            cell: cell,
        };
    }
    extents_lay::put_run(map, h.written * 4, h.start, h.end - h.start, h.cell);
    Hand {
        written: h.written + 1,
        start: x,
        end: y,
        cell: cell,
    }
}
