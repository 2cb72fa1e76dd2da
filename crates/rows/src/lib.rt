// The limits of the product, the kinds of rows, the refusals, a row, and the slice that holds six numbers for each row. specs/Limits.antt,
// specs/Kinds.antt and specs/Refusals.antt have the numbers for the contracts.
#![tactic(auto)]

mod first;
mod group;
pub mod kind;
pub mod refusal;
mod row;

ghost use Rattle.std.specs.Prelude.{◌≡◌};
ghost use Rattle.rows.specs.Questions.{is_process_limit};

pub use first::{FirstRows, first_rows};
pub use group::put_group;
use kind::Kind;
pub use row::{Row, put_row, row_at};

// Models are numbered from 0.
pub const MODELS: u32 = 4;
// The largest process limit.
pub const PROCESSES: u32 = 48;
// The largest row limit.
pub const ROWS: u32 = 4096;
// Files are numbered from 0.
pub const FILES: u32 = 64;
// Messages are numbered from 0.
pub const MESSAGES: u32 = 65536;
// The largest offset, the largest length and the largest end of a range.
pub const OFFSET_MAX: u32 = 4294967295;
// The fields of a record, and the numbers of a row.
pub const FIELDS: usize = 6;

// The kinds' numbers, for a `match` on the kind that a row has, which may be no kind's (docs/DECISIONS.md, Forms).
pub const READ: u32 = Kind::Read as u32;

pub const WRITE: u32 = Kind::Write as u32;

pub const COMMIT: u32 = Kind::Commit as u32;

pub const OPEN: u32 = Kind::Open as u32;

pub const CLOSE: u32 = Kind::Close as u32;

pub const SYNC: u32 = Kind::Sync as u32;

pub const SEND: u32 = Kind::Send as u32;

pub const RECV: u32 = Kind::Recv as u32;

pub const WAIT: u32 = Kind::Wait as u32;

pub const BARRIER: u32 = Kind::Barrier as u32;

// The kind of the row at which a message arrives: the order runs from the send to this row.
pub const ARRIVAL: u32 = Kind::ARRIVAL as u32;

// How many kinds there are.
pub const KINDS: u32 = 10;

// The numbers of a row by their places in the slice, from the row's first.
pub const PROCESS_AT: usize = 0;

pub const KIND_AT: usize = 1;

pub const FILE_AT: usize = 2;

pub const OFFSET_AT: usize = 3;

pub const LENGTH_AT: usize = 4;

pub const MESSAGE_AT: usize = 5;

// Answers whether the number is a process limit: 1 to PROCESSES.
pub fn is_process_limit(n: u32) -> bool
    ensures { result ≡ is_process_limit n }
{
    if n < 1 {
        return false;
    }
    n <= PROCESSES
}
