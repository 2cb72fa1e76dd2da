// Whether the rows of a file are of a process that is flagged: question 19.
ghost use Rattle.std.specs.Prelude.{◌≡◌};
ghost use Rattle.rows.specs.Rows.{rows_in};
ghost use Rattle.join.specs.Sharing.{any_flagged};

use barriers::participants;
use participants::FLAGS;

// Whether one of the first n rows of a slice is of a flagged process.
#[tactic(auto, unfolding(rows::specs::Tests::any))]
pub(crate) fn is_any_flagged(rows: &[u32], n: usize, flags: [bool; FLAGS]) -> bool
    ensures { result ≡ any_flagged flags (rows_in n rows.now) }
{
    for row in rows::first_rows(rows, n) {
        if participants::flag_at(&flags, row.process) {
            return true;
        }
    }
    false
}
