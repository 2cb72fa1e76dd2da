// Which processes have rows, and how many.
ghost use Rattle.std.specs.Prelude.{◌≡◌, true, false, get_or, set};
ghost use Rattle.rows.specs.Counting.{count_below};
ghost use Rattle.rows.specs.Limits.{PROCESSES};
ghost use Rattle.rows.specs.Rows.{rows_in};
ghost use Rattle.barriers.specs.Participants.{flagged};

// One flag for each process.
pub const FLAGS: usize = rows::PROCESSES as usize;

// Sets the flag of a process. A process past the flags changes nothing.
fn set_flag(flags: &mut [bool], process: u32)
    ensures { flags.new ≡ set flags.old process true }
{
    // By its index: of an element that was lent by `get_mut` a proof keeps nothing.
    let p = process as usize;
    if p < flags.len() {
        flags[p] = true;
    }
}

// Whether the flag of a process is set. A process past the flags has none.
pub fn flag_at(flags: &[bool], process: u32) -> bool
    ensures { result ≡ get_or flags.now process false }
{
    flags.get(process as usize).copied().unwrap_or(false)
}

// Answers the flags with those of the processes of the first n rows set. The rows come as a slice and a count, as C lends them.
#[tactic(auto, unfolding(crate::specs::Participants::flagged))]
pub fn flag_processes(before: [bool; FLAGS], rows: &[u32], n: usize) -> [bool; FLAGS]
    ensures { result ≡ flagged before (rows_in n rows.now) }
{
    let mut flags = before;
    for row in rows::first_rows(rows, n) {
        set_flag(&mut flags, row.process);
    }
    flags
}

// Counts the flags that are set.
pub fn count_flags(flags: [bool; FLAGS]) -> u32
    ensures { result ≡ count_below PROCESSES (λ p. get_or flags p false) }
{
    flags.iter().filter(|flag| **flag).count() as u32
}
