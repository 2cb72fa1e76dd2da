// The map of pieces: which row number and mark every byte of a file has, kept as longest runs in a lent slice.
#![tactic(auto)]

ghost use Rattle.std.specs.Prelude.{◌≡◌};
ghost use Rattle.extents_meaning.specs.Maps.{lawful, lawful_published};
ghost use Rattle.extents.specs.Answers.{told_done, told_listed};
ghost use Rattle.extents.specs.LookupAnswers.{told_lookup};
ghost use Rattle.extents.specs.Entries.{WriteEntry, ListEntry, PublishEntry, RefreshEntry, SyncEntry, WriteThroughEntry, ReadEntry, LookupEntry};

pub mod lawful;

use extents_map::locate::LawfulMap;
use rows::refusal::Refusal;

// The row number and the mark of a byte, 0 or 1 as maps have it, and the first byte behind it where either differs, 4,294,967,295 where there is none:
// the definitions speak of these numbers.
#[derive(Clone, Copy, Debug, PartialEq, Eq, Hash)]
pub struct Stretch {
    pub number: u32,
    pub mark: u32,
    pub next: u32,
}

// The map keeps all that document 01 asks of one: runs in rising order, as long as they can be, then 0.
pub fn is_lawful(map: &[u32]) -> bool
    ensures { result ≡ lawful map.now }
{
    extents_map::scan::is_lawful(map)
}

// The map is lawful and none of its runs is marked unpublished.
pub fn is_published(map: &[u32]) -> bool
    ensures { result ≡ lawful_published map.now }
{
    extents_map::scan::is_published(map)
}

// Gives a range of a map a row number and a mark.
pub fn write(
    map: &mut [u32],
    start: u32,
    length: u32,
    number: u32,
    unpublished: bool,
) -> Result<(), Refusal>
    ensures { WriteEntry map.old start length number unpublished (told_done result) map.new }
{
    if !extents_map::scan::is_lawful(map) {
        return Err(Refusal::State);
    }
    lawful::write(map, start, length, number, unpublished)
}

// Puts the pieces of a range into an answer slice.
pub fn list_range(map: &[u32], start: u32, length: u32, out: &mut [u32]) -> Result<u32, Refusal>
    ensures { ListEntry map.now start length out.old (told_listed result) out.new }
{
    let Some(map) = LawfulMap::of(map) else {
        return Err(Refusal::State);
    };
    lawful::list_range(map.numbers, start, length, out)
}

// Looks a byte up in a map.
pub fn lookup(map: &[u32], byte: u32) -> Result<Stretch, Refusal>
    ensures { LookupEntry map.now byte (told_lookup result) }
{
    let Some(map) = LawfulMap::of(map) else {
        return Err(Refusal::State);
    };
    lawful::lookup(map.numbers, byte)
}

// Publishes a view.
pub fn publish(maps: &mut [u32], space: usize, view: usize, below: usize) -> Result<(), Refusal>
    ensures { PublishEntry space view below maps.old (told_done result) maps.new }
{
    if !extents_pair::two_maps(maps, space, view, below) {
        return Err(Refusal::State);
    }
    lawful::publish(maps, space, view, below)
}

// Refreshes a view.
pub fn refresh(maps: &mut [u32], space: usize, view: usize, below: usize) -> Result<(), Refusal>
    ensures { RefreshEntry space view below maps.old (told_done result) maps.new }
{
    if !extents_pair::two_maps(maps, space, view, below) {
        return Err(Refusal::State);
    }
    lawful::refresh(maps, space, view, below)
}

// Publishes a view, then refreshes it.
pub fn sync(maps: &mut [u32], space: usize, view: usize, below: usize) -> Result<(), Refusal>
    ensures { SyncEntry space view below maps.old (told_done result) maps.new }
{
    if !extents_pair::two_maps(maps, space, view, below) {
        return Err(Refusal::State);
    }
    lawful::sync(maps, space, view, below)
}

// Writes a range into a view, then publishes it.
pub fn write_through(
    maps: &mut [u32],
    space: usize,
    view: usize,
    below: usize,
    start: u32,
    length: u32,
    number: u32,
) -> Result<(), Refusal>
    ensures { WriteThroughEntry space view below maps.old start length number (told_done result) maps.new }
{
    if !extents_pair::two_maps(maps, space, view, below) {
        return Err(Refusal::State);
    }
    lawful::write_through(maps, space, view, below, start, length, number)
}

// Refreshes a view, then puts the pieces of a range of it into an answer slice.
pub fn read(
    maps: &mut [u32],
    space: usize,
    view: usize,
    below: usize,
    start: u32,
    length: u32,
    out: &mut [u32],
) -> Result<u32, Refusal>
    ensures { ReadEntry space view below maps.old start length out.old (told_listed result) maps.new out.new }
{
    if !extents_pair::two_maps(maps, space, view, below) {
        return Err(Refusal::State);
    }
    lawful::read(maps, space, view, below, start, length, out)
}
