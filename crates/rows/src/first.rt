// The first rows of a slice, one after the other.
ghost use Rattle.std.specs.Prelude.{◌≡◌, drop};
ghost use Rattle.std.specs.Iterator.{YieldsFirst, item_count};
ghost use Rattle.rows.specs.Rows.{row_here, rows_in};
ghost use Rattle.rows.specs.First.{rest};

use crate::FIELDS;
use crate::row::{Row, front_row};

// The rows that are still to come.
#[derive(Drop)]
pub struct FirstRows<'a> {
    numbers: &'a [u32],
    count: usize,
}

impl Iterator for FirstRows<'_> {
    type Item = Row;

    ghost next_gives = { YieldsFirst rest };

    ghost remaining = { item_count rest };

    fn next(&mut self) -> Option<Row> {
        if self.count == 0 {
            return None;
        }
        let (row, behind) = split_row(self.numbers);
        self.numbers = behind;
        self.count -= 1;
        Some(row)
    }
}

// The first rows of a slice, as many as the count says. Numbers past the slice's end are 0.
pub fn first_rows(numbers: &[u32], count: usize) -> FirstRows<'_>
    ensures { rest result ≡ rows_in count numbers.now }
{
    FirstRows { numbers, count }
}

// The row at the front of a slice, and what stands behind it. Numbers past the slice's end are 0.
#[tactic(auto, unfolding(crate::specs::Rows::row_here))]
fn split_row(numbers: &[u32]) -> (Row, &[u32])
    ensures row { result.0 ≡ row_here numbers.now }
    ensures behind { result.1.now ≡ drop 6 numbers.now }
{
    match numbers.split_first_chunk::<FIELDS>() {
        Some((six, behind)) => (Row::from(*six), behind),
        None => (front_row(numbers), &numbers[numbers.len()..]),
    }
}
