// What is asked of a row behind the questions 6 to 11.
ghost use Rattle.std.specs.Prelude.{◌≡◌, ℕ};
ghost use Rattle.rows.specs.declared.row.Row.{Row};
ghost use Rattle.rows.specs.Refusals.{Asks};

use messages::MessageTable;
use rows::Row;
use rows::refusal::Refusal;

// Questions that are put to row after row, with what they know of the rows before.
pub trait RowQuestions {
    // The number of the first No to a row, and 0 where there is none.
    ghost asked: { Self → Row → ℕ };

    // What is known behind a row.
    ghost noted: { Self → Row → Self };

    // Puts the questions to a row and notes it.
    fn ask(&mut self, row: Row) -> Result<(), Refusal>
        ensures answer { Asks (asked self.old row) result }
        ensures left { self.new ≡ noted self.old row };
}

// Nothing is asked.
#[derive(Clone, Copy, Debug, PartialEq, Eq, Hash)]
pub struct Unasked;

impl RowQuestions for Unasked {
    ghost use Rattle.trace.specs.Asked.{nothing_asked, nothing_noted};

    ghost asked = { nothing_asked };

    ghost noted = { nothing_noted };

    fn ask(&mut self, _row: Row) -> Result<(), Refusal> {
        Ok(())
    }
}

// The questions 12 and 21, by the table of the messages.
impl RowQuestions for MessageTable {
    ghost use Rattle.trace.specs.Asked.{table_asked, table_noted};

    ghost asked = { table_asked };

    ghost noted = { table_noted };

    fn ask(&mut self, row: Row) -> Result<(), Refusal> {
        self.put(row)
    }
}
