// The entries without question 13, for a caller that knows its maps to be lawful. They keep their slices and the clauses on them: a type over a `&mut`
// slice that says that its maps are lawful would hold the slice anew behind each write, and two maps are named by their places in one slice, since two
// `&mut` parts of it would be lent and given back at each entry. Two lines in each entry make the pair, which a function of their own would not shorten.
ghost use Rattle.std.specs.Prelude.{◌-◌, ◌≤◌, ◌≡◌, true, length, ltb};
ghost use Rattle.rows.specs.Limits.{ROWS};
ghost use Rattle.extents_meaning.specs.Cells.{cell_of};
ghost use Rattle.extents_meaning.specs.Runs.{pieces_of};
ghost use Rattle.extents_meaning.specs.Maps.{bytes_of, lawful};
ghost use Rattle.extents_meaning.specs.Pairs.{two_maps};
ghost use Rattle.extents.specs.Answers.{told_done, told_listed};
ghost use Rattle.extents.specs.LookupAnswers.{told_lookup};
ghost use Rattle.extents.specs.Entries.{mark_bit, WriteEntry, ListEntry, PublishEntry, RefreshEntry, SyncEntry, WriteThroughEntry, ReadEntry, LookupEntry};

use crate::Stretch;
use extents_map::locate::LawfulMap;
use extents_map::modes::{MarkPublished, Publish, Range, ReadMap, Refresh};
use extents_pair::Pair;
use rows::refusal::Refusal;

// Gives a range of a map a row number and a mark.
pub fn write(
    map: &mut [u32],
    start: u32,
    length: u32,
    number: u32,
    unpublished: bool,
) -> Result<(), Refusal>
    requires { lawful map.old ≡ true }
    ensures { WriteEntry map.old start length number unpublished (told_done result) map.new }
{
    if number < 1 {
        return Err(Refusal::RowNumber);
    }
    if rows::ROWS < number {
        return Err(Refusal::RowNumber);
    }
    if rows::OFFSET_MAX - start < length {
        return Err(Refusal::RangeEnd);
    }
    if length == 0 {
        return Ok(());
    }
    if extents_lay::lay(map, start, start + length, cell_of(number, unpublished)) {
        Ok(())
    } else {
        Err(Refusal::MapSpace)
    }
}

// The cell of a row number with its mark.
fn cell_of(number: u32, unpublished: bool) -> u32
    requires { number ≤ ROWS }
    ensures { result ≡ cell_of number (mark_bit unpublished) }
{
    number * 2 + u32::from(unpublished)
}

// Puts the pieces of a range into an answer slice.
pub fn list_range(map: &[u32], start: u32, length: u32, out: &mut [u32]) -> Result<u32, Refusal>
    requires { lawful map.now ≡ true }
    ensures { ListEntry map.now start length out.old (told_listed result) out.new }
{
    if rows::OFFSET_MAX - start < length {
        return Err(Refusal::RangeEnd);
    }
    let map = LawfulMap { numbers: map };
    if lacks(map, start, start + length, out.len() / 3) {
        return Err(Refusal::AnswerSpace);
    }
    let n = extents_map::list::list(map, start, start + length, out);
    Ok(n as u32)
}

// As extents_pair::lacks of one map alone, which lists other pieces: one function for both would be a `match` on which.
// Has a range of a map more pieces than there is room for? A range has at most two for each run of the map, and one more: the walk counts them
// only where the room may lack.
fn lacks(map: LawfulMap<'_>, from: u32, to: u32, room: usize) -> bool
    requires { from ≤ to }
    ensures { result ≡ ltb room (length (pieces_of (bytes_of map.entry.numbers.now) from (to - from))) }
{
    if map.runs_in() < room / 2 {
        return false;
    }
    room < extents_map::scan::count::<ReadMap>(map, map, Range::NONE, from, to)
}

// Looks a byte up in a map. At 4,294,967,295 a range of length 1 ends past the offset range.
pub fn lookup(map: &[u32], byte: u32) -> Result<Stretch, Refusal>
    requires { lawful map.now ≡ true }
    ensures { LookupEntry map.now byte (told_lookup result) }
{
    if byte == rows::OFFSET_MAX {
        return Err(Refusal::RangeEnd);
    }
    let from = LawfulMap { numbers: map }.seek(byte);
    let seen = extents_map::scan::see(map, from, byte);
    Ok(Stretch {
        number: extents_map::scan::number_in(seen.cell),
        mark: extents_map::scan::mark_in(seen.cell),
        next: seen.next,
    })
}

// Publishes a view.
pub fn publish(maps: &mut [u32], space: usize, view: usize, below: usize) -> Result<(), Refusal>
    requires { two_maps space view below maps.old ≡ true }
    ensures { PublishEntry space view below maps.old (told_done result) maps.new }
{
    let own = extents_pair::own_runs(maps, space, view);
    let pair = Pair {
        space,
        view,
        below,
        own,
    };
    if !extents_pair::fits::<Publish>(maps, pair, Range::NONE) {
        return Err(Refusal::MapSpace);
    }
    extents_publish::share(maps, pair, 0, 0, 0);
    extents_refresh::mark_published(maps, pair);
    Ok(())
}

// Refreshes a view.
pub fn refresh(maps: &mut [u32], space: usize, view: usize, below: usize) -> Result<(), Refusal>
    requires { two_maps space view below maps.old ≡ true }
    ensures { RefreshEntry space view below maps.old (told_done result) maps.new }
{
    let own = extents_pair::own_runs(maps, space, view);
    let pair = Pair {
        space,
        view,
        below,
        own,
    };
    if !extents_pair::fits::<Refresh>(maps, pair, Range::NONE) {
        return Err(Refusal::MapSpace);
    }
    extents_refresh::refresh(maps, pair);
    Ok(())
}

// Publishes a view, then refreshes it.
pub fn sync(maps: &mut [u32], space: usize, view: usize, below: usize) -> Result<(), Refusal>
    requires { two_maps space view below maps.old ≡ true }
    ensures { SyncEntry space view below maps.old (told_done result) maps.new }
{
    let own = extents_pair::own_runs(maps, space, view);
    let pair = Pair {
        space,
        view,
        below,
        own,
    };
    if !extents_pair::fits::<Publish>(maps, pair, Range::NONE) {
        return Err(Refusal::MapSpace);
    }
    extents_publish::share(maps, pair, 0, 0, 0);
    extents_refresh::copy(maps, space, below, view);
    Ok(())
}

// Writes a range into a view, then publishes it.
pub fn write_through(
    maps: &mut [u32],
    space: usize,
    view: usize,
    below: usize,
    start: u32,
    length: u32,
    number: u32,
) -> Result<(), Refusal>
    requires { two_maps space view below maps.old ≡ true }
    ensures { WriteThroughEntry space view below maps.old start length number (told_done result) maps.new }
{
    if number < 1 {
        return Err(Refusal::RowNumber);
    }
    if rows::ROWS < number {
        return Err(Refusal::RowNumber);
    }
    if rows::OFFSET_MAX - start < length {
        return Err(Refusal::RangeEnd);
    }
    let end = start + length;
    let cell = number * 2;
    let own = extents_pair::own_runs(maps, space, view);
    let pair = Pair {
        space,
        view,
        below,
        own,
    };
    let range = Range { start, end, cell };
    if !extents_pair::fits::<Publish>(maps, pair, range) {
        return Err(Refusal::MapSpace);
    }
    if !extents_pair::fits::<MarkPublished>(maps, pair, range) {
        return Err(Refusal::MapSpace);
    }
    extents_publish::share(maps, pair, start, end, number);
    extents_refresh::mark_published(maps, pair);
    if start < end {
        extents_pair::lay(maps, space, view, start, end, cell);
    }
    Ok(())
}

// Refreshes a view, then puts the pieces of a range of it into an answer slice.
pub fn read(
    maps: &mut [u32],
    space: usize,
    view: usize,
    below: usize,
    start: u32,
    length: u32,
    out: &mut [u32],
) -> Result<u32, Refusal>
    requires { two_maps space view below maps.old ≡ true }
    ensures { ReadEntry space view below maps.old start length out.old (told_listed result) maps.new out.new }
{
    if rows::OFFSET_MAX - start < length {
        return Err(Refusal::RangeEnd);
    }
    let end = start + length;
    let own = extents_pair::own_runs(maps, space, view);
    let pair = Pair {
        space,
        view,
        below,
        own,
    };
    if !extents_pair::fits::<Refresh>(maps, pair, Range::NONE) {
        return Err(Refusal::MapSpace);
    }
    if extents_pair::lacks(maps, pair, start, end, out.len() / 3) {
        return Err(Refusal::AnswerSpace);
    }
    extents_refresh::refresh(maps, pair);
    let n = extents_pair::list(maps, space, view, start, end, out);
    let listed = n as u32;
    Ok(listed)
}
