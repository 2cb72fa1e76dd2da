// The whole call on the traces of two controllers: the joined rows, their counts, where their records stand, and the verdict.
#![tactic(auto)]

ghost use Rattle.std.specs.Prelude.{length};
ghost use Rattle.join_meaning.specs.Joining.{join_traces};
ghost use Rattle.join_checker.specs.Judging.{Decides};

use checker::Judged;
use join::{JoinCall, JoinRefused};

// Joins two files, puts the joined rows, their counts and the places of their records into the lent slices, and answers the verdict under the
// model.
pub fn judge_join<'a>(
    first: &'a [u8],
    second: &'a [u8],
    call: JoinCall,
    rows: &mut [u32],
    counts: &mut [u16],
    parts: &mut [u64],
) -> Result<Judged, JoinRefused>
    ensures { Decides call.model call.process_limit
        (join_traces first.now second.now call.first_header call.second_header call.model call.row_limit call.process_limit
        (length rows.old) (length counts.old) (length parts.old))
        result rows.old rows.new counts.old counts.new parts.old parts.new }
{
    let n = join::join_rows(first, second, call, rows, counts, parts)?;
    let race = races::verdict(rows, n, call.process_limit, call.model, counts)?;
    Ok(Judged { rows: n, race })
}
