// A row, and the slice that holds six numbers for each row.
ghost use Rattle.std.specs.Prelude.{◌≡◌, get_or, drop};
ghost use Rattle.rows.specs.Rows.{six, row_here, row_in, with_row};

use crate::{FIELDS, FILE_AT, KIND_AT, LENGTH_AT, MESSAGE_AT, OFFSET_AT, PROCESS_AT, put_group};

// A row: six numbers in field order. Fields that the kind does not use are 0.
#[derive(Clone, Copy, Debug, PartialEq, Eq, Hash)]
pub struct Row {
    pub process: u32,
    pub kind: u32,
    pub file: u32,
    pub offset: u32,
    pub length: u32,
    pub message: u32,
}

impl From<[u32; FIELDS]> for Row {
    ghost from_gives = { λ numbers row. row ≡ row_here numbers };

    #[tactic(auto, unfolding(crate::specs::Rows::row_here))]
    fn from([process, kind, file, offset, length, message]: [u32; FIELDS]) -> Row {
        Row {
            process,
            kind,
            file,
            offset,
            length,
            message,
        }
    }
}

impl From<Row> for [u32; FIELDS] {
    ghost from_gives = { λ row numbers. numbers ≡ six row };

    #[tactic(auto, unfolding(crate::specs::Rows::six))]
    fn from(row: Row) -> [u32; FIELDS] {
        [
            row.process,
            row.kind,
            row.file,
            row.offset,
            row.length,
            row.message,
        ]
    }
}

// Answers the number at an index, and 0 past the end.
fn number_at(numbers: &[u32], i: usize) -> u32
    ensures { result ≡ get_or numbers.now i 0 }
{
    numbers.get(i).copied().unwrap_or(0)
}

// Answers the row at the front of a slice. Numbers past the slice's end are 0.
#[tactic(auto, unfolding(crate::specs::Rows::row_here))]
pub(crate) fn front_row(numbers: &[u32]) -> Row
    ensures { result ≡ row_here numbers.now }
{
    Row {
        process: number_at(numbers, PROCESS_AT),
        kind: number_at(numbers, KIND_AT),
        file: number_at(numbers, FILE_AT),
        offset: number_at(numbers, OFFSET_AT),
        length: number_at(numbers, LENGTH_AT),
        message: number_at(numbers, MESSAGE_AT),
    }
}

// Answers row k of a slice. Numbers past the slice's end are 0.
#[tactic(auto, unfolding(crate::specs::Rows::row_here))]
pub fn row_at(rows: &[u32], k: usize) -> Row
    ensures { result ≡ row_in rows.now k }
{
    if rows.len() / FIELDS < k {
        return front_row(&[]);
    }
    front_row(&rows[k * FIELDS..])
}

// Puts a row at index k of a slice. A slice that has no room there stays as it is.
#[tactic(auto, unfolding(crate::specs::Rows::with_row, crate::specs::Rows::with_group, crate::specs::Rows::six))]
pub fn put_row(rows: &mut [u32], k: usize, row: Row)
    ensures { rows.new ≡ with_row k row rows.old }
{
    put_group(rows, k, row.into());
}
