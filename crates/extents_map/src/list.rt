// A read's pieces, put into an answer slice.
ghost use Rattle.std.specs.Prelude.{◌+◌, ◌*◌, ◌-◌, ◌≤◌, ◌<◌, ◌≡◌, length};
ghost use Rattle.extents_meaning.specs.Runs.{pieces_of};
ghost use Rattle.extents_meaning.specs.Maps.{bytes_of, listed_in};
ghost use Rattle.extents_map.specs.Pieces.{Room, Turned};

use crate::locate::LawfulMap;
use crate::scan;

// How many pieces are put, and the one in hand, whose bytes from `start` on have the value; none is in hand where the value is 0. It is no Option,
// since `Turned` says of these numbers what a turn makes of them.
#[derive(Clone, Copy, Debug, PartialEq, Eq, Hash)]
struct Piece {
    count: usize,
    start: u32,
    value: u32,
}

// Puts the pieces of a range of a map into a slice that has room for them, and answers their count.
pub fn list(map: LawfulMap<'_>, from: u32, to: u32, out: &mut [u32]) -> usize
    requires rising { from ≤ to }
    requires list_room { 3 * length (pieces_of (bytes_of map.numbers.now) from (to - from)) ≤ length out.old }
    ensures answer { result ≡ length (pieces_of (bytes_of map.entry.numbers.now) from (to - from)) }
    ensures out_after { out.new ≡ listed_in (pieces_of (bytes_of map.entry.numbers.now) from (to - from)) out.old }
{
    let mut x = from;
    let mut i = map.seek(from);
    let mut hand = Piece {
        count: 0,
        start: from,
        value: 0,
    };
    // No `for`: each step goes to the next byte that has another cell.
    while x < to {
        let s = scan::see(map.numbers, i, x);
        hand = turn(out, hand, x, s.cell / 2 + 1);
        i = s.at;
        x = s.next.min(to);
    }
    let last = turn(out, hand, x, 0);
    last.count
}

// At byte x the value is `value`: another one than that of the piece in hand puts that piece down and begins one at x.
fn turn(out: &mut [u32], hand: Piece, x: u32, value: u32) -> Piece
    requires { Room out.old hand x value }
    ensures { Turned out.old hand x value result out.new }
{
    if hand.value == 0 {
        return Piece {
            count: hand.count,
            start: x,
            value,
        };
    }
    if value == hand.value {
        return hand;
    }
    // Without the tests of `rows::put_group`, which would cost a listing an eighth of its time.
    let at = hand.count * 3;
    out[at..at + 3].copy_from_slice(&[hand.start, x - hand.start, hand.value - 1]);
    Piece {
        count: hand.count + 1,
        start: x,
        value,
    }
}
