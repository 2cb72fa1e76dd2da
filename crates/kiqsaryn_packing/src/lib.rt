// Packs the answers of a check, of a whole call on one trace or on two files, of a verdict, of a list of races, of a machine, of writing and of a
// lookup into one number each, for C.
#![tactic(auto)]

ghost use Rattle.std.specs.Prelude.{◌≡◌, ◌%◌, ◌+◌, ◌*◌, ℕ};
ghost use Rattle.rows.specs.Refusals.{number_of};
ghost use Rattle.kiqsaryn_packing.specs.Packing.{WORD, WORD_4, UPPER, packed_race, number_if};

use checker::Judged;
use extents::Stretch;
use join::JoinRefused;
use machine::Replayed;
use races::Race;
use rows::refusal::{Refusal, Refused};

// The factor of the upper half of a number, which has 32 bits.
pub const UPPER: u64 = 4294967296;

// The factors of the second, third and fourth word of a number, which have 16 bits each.
const WORD: u64 = 65536;

const WORD_3: u64 = 4294967296;

const WORD_4: u64 = 281474976710656;

// The factor of the row number in the upper half of a lookup's answer. Below it there is room for a mark of two bits.
const MARKS: u64 = 4;

// An answer that is packed into one number.
pub trait Packed {
    ghost packed: { Self → ℕ };

    // The number that holds the answer.
    fn pack(self) -> u64
        ensures { result ≡ packed self };
}

// Packs any two numbers by halves, as a refusal's number and its place: the first in the upper half, the second in the lower.
pub fn pack_halves(number: u32, place: u32) -> u64
    ensures { result ≡ number * UPPER + place }
{
    number as u64 * UPPER + place as u64
}

// Packs any three numbers by words of 16 bits, as a refusal's number, its file and its place: the first in the highest word, the second in the second
// one and the third in the lowest. A word holds the lowest 16 bits of its number.
pub fn pack_words(number: u32, file: u32, place: u32) -> u64
    ensures { result ≡ number % WORD * WORD_4 + file % WORD * WORD + place % WORD }
{
    word(number) * WORD_4 + word(file) * WORD + word(place)
}

// A refusal with its place, by halves.
fn pack_refused(refused: Refused) -> u64
    ensures { result ≡ number_of refused.refusal * UPPER + refused.place }
{
    pack_halves(refused.refusal.number(), refused.place)
}

// What a check or a list of races answers: the count of an accepted trace's rows or of the pairs, and of a refusal its number in the upper half
// and its place in the lower.
impl Packed for Result<u32, Refused> {
    ghost use Rattle.kiqsaryn_packing.specs.Packing.{packed_count};

    ghost packed = { packed_count };

    fn pack(self) -> u64 {
        match self {
            Ok(n) => n as u64,
            Err(refused) => pack_refused(refused),
        }
    }
}

// What writing answers: the text's length, and of a refusal its number in the upper half and its place in the lower.
impl Packed for Result<usize, Refused> {
    ghost use Rattle.kiqsaryn_packing.specs.Packing.{packed_length};

    ghost packed = { packed_length };

    fn pack(self) -> u64 {
        match self {
            Ok(length) => length as u64,
            Err(refused) => pack_refused(refused),
        }
    }
}

// The lowest 16 bits of a number.
fn word(n: u32) -> u64
    ensures { result ≡ n % WORD }
{
    n as u64 % WORD
}

// A trace's rows, and its first race: from the lowest word the row count, the later and the earlier row, both 0 for free, and 0.
pub fn pack_race(rows: u32, race: Option<Race>) -> u64
    ensures { result ≡ packed_race rows race }
{
    match race {
        None => word(rows),
        Some(Race { earlier, later }) => {
            word(rows) + word(later) * WORD + word(earlier) * WORD_3
        }
    }
}

// What the whole call answers, in four words of 16 bits. Of an accepted trace, from the lowest: the row count, the later and the earlier row of the
// first race, both 0 for free, and 0. Of a refusal: its place in the lowest, its number in the highest, and 0 between. A word holds the lowest 16
// bits of its number; the numbers of the whole call have no more.
impl Packed for Result<Judged, Refused> {
    ghost use Rattle.kiqsaryn_packing.specs.Packing.{packed_judgement};

    ghost packed = { packed_judgement };

    fn pack(self) -> u64 {
        match self {
            Ok(judged) => pack_race(judged.rows, judged.race),
            Err(refused) => pack_words(refused.refusal.number(), 0, refused.place),
        }
    }
}

// What the whole call on two files answers, in four words of 16 bits. Of an accepted join, from the lowest: the row count, the later and the earlier
// row of the first race, both 0 for free, and 0. Of a refusal: its place, its file, 0, and its number in the highest. A word holds the lowest 16 bits
// of its number; the numbers of the whole call have no more.
impl Packed for Result<Judged, JoinRefused> {
    ghost use Rattle.kiqsaryn_packing.specs.Packing.{packed_join_judgement};

    ghost packed = { packed_join_judgement };

    fn pack(self) -> u64 {
        match self {
            Ok(judged) => pack_race(judged.rows, judged.race),
            Err(refused) => {
                let file = refused.file.map_or(0, |file| file.number());
                pack_words(refused.refusal.number(), file, refused.place)
            }
        }
    }
}

// A verdict: 0 for free, the earlier row's number in the upper half and the later row's in the lower for a race, and of a refusal its number in the
// upper half.
impl Packed for Result<Option<Race>, Refusal> {
    ghost use Rattle.kiqsaryn_packing.specs.Packing.{packed_verdict};

    ghost packed = { packed_verdict };

    fn pack(self) -> u64 {
        match self {
            Ok(None) => 0,
            Ok(Some(Race { earlier, later })) => pack_halves(earlier, later),
            Err(refusal) => pack_halves(refusal.number(), 0),
        }
    }
}

// What a step answers: the count of pieces, 0 for a row that is no read, and of a refusal its number in the upper half.
impl Packed for Result<Option<u32>, Refusal> {
    ghost use Rattle.kiqsaryn_packing.specs.Packing.{packed_pieces};

    ghost packed = { packed_pieces };

    fn pack(self) -> u64 {
        match self {
            Ok(None) => 0,
            Ok(Some(count)) => count as u64,
            Err(refusal) => pack_halves(refusal.number(), 0),
        }
    }
}

// What a lookup answers: the next byte in the lower half, four times the row number and the mark in the upper one, and of a refusal its number in the
// highest word. A lookup's row number has 13 bits and its mark one; a larger number is packed by its lowest bits.
impl Packed for Result<Stretch, Refusal> {
    ghost use Rattle.kiqsaryn_packing.specs.Packing.{packed_stretch};

    ghost packed = { packed_stretch };

    fn pack(self) -> u64 {
        match self {
            Ok(s) => (word(s.number) * MARKS + s.mark as u64 % MARKS) * UPPER + s.next as u64,
            Err(refusal) => pack_words(refusal.number(), 0, 0),
        }
    }
}

// The number of a refusal, and 0 for none.
pub fn number_or_zero(answer: Result<(), Refusal>) -> u32
    ensures { result ≡ number_if answer }
{
    match answer {
        Ok(()) => 0,
        Err(refusal) => refusal.number(),
    }
}

// What a replay answers: how many rows it has gone through, and the number of the refusal that ended it in the upper half, 0 for none.
impl Packed for Replayed {
    ghost use Rattle.kiqsaryn_packing.specs.Packing.{packed_replay};

    ghost packed = { packed_replay };

    fn pack(self) -> u64 {
        let number = self.refusal.map_or(0, |refusal| refusal.number());
        pack_halves(number, self.rows)
    }
}
