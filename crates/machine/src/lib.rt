// The machine as callers see it: the layered file and the plain file, made over a lent slice, stepped row by row, and replayed from a trace.
// Each file has names of its own here, since the exports for C and the documents call them so.
#![tactic(auto)]

ghost use Rattle.std.specs.Prelude.{◌*◌, ◌≡◌, length};
ghost use Rattle.rows.specs.Questions.{first_no};
ghost use Rattle.rows.specs.Refusals.{Asks};
ghost use Rattle.machine_meaning.specs.States.{maps_length};
ghost use Rattle.machine_meaning.specs.Steps.{making_questions, plain_making_questions, made_to, step_of, plain_step_of};
ghost use Rattle.machine_state.specs.Answers.{header_of, told_step, Steps};
ghost use Rattle.machine_state.specs.Replays.{replay_of, plain_replay_of, Replays};

use machine_layered::Layered;
use machine_plain::Plain;
use machine_state::Machine;
pub use machine_state::Replayed;
use rows::Row;
use rows::refusal::Refusal;

// Makes a machine: 0 everywhere in its maps. A refusal changes nothing.
pub fn make(machine: Machine, maps: &mut [u32]) -> Result<(), Refusal>
    ensures answer { Asks (first_no (making_questions (header_of machine) (length maps.old))) result }
    ensures left { maps.new ≡ made_to (first_no (making_questions (header_of machine) (length maps.old))) (maps_length (header_of machine)) maps.old }
{
    machine_state::make::<Layered>(machine, maps)
}

// Makes a plain file: one map, 0 everywhere in it. A refusal changes nothing.
pub fn make_plain(plain: Machine, map: &mut [u32]) -> Result<(), Refusal>
    ensures answer { Asks (first_no (plain_making_questions (header_of plain) (length map.old))) result }
    ensures left { map.new ≡ made_to (first_no (plain_making_questions (header_of plain) (length map.old))) (4 * (header_of plain).space) map.old }
{
    machine_state::make::<Plain>(plain, map)
}

// Puts a row of the machine's file to the machine under a row number. A read's pieces go to the answer slice, and it answers their count.
pub fn step(
    machine: Machine,
    maps: &mut [u32],
    row: Row,
    number: u32,
    out: &mut [u32],
) -> Result<Option<u32>, Refusal>
    ensures { Steps (step_of (header_of machine) maps.old row number out.old) (told_step result) maps.new out.new }
{
    machine_state::step::<Layered>(machine, maps, row, number, out)
}

// Puts a row of the file to the plain file under a row number. A read's pieces go to the answer slice, and it answers their count.
pub fn step_plain(
    plain: Machine,
    map: &mut [u32],
    row: Row,
    number: u32,
    out: &mut [u32],
) -> Result<Option<u32>, Refusal>
    ensures { Steps (plain_step_of (header_of plain) map.old row number out.old) (told_step result) map.new out.new }
{
    machine_state::step::<Plain>(plain, map, row, number, out)
}

// Puts each row of the machine's file behind the first ones, up to row n, to the machine under its number in the trace. The counts get the count
// of pieces of each row, and the answer slice the pieces of all reads one after the other. A refusal ends the replay before that row.
pub fn replay(
    machine: Machine,
    maps: &mut [u32],
    rows: &[u32],
    first: u32,
    n: u32,
    counts: &mut [u32],
    out: &mut [u32],
) -> Replayed
    ensures { Replays (replay_of (header_of machine) rows.now first n maps.old counts.old out.old)
        result maps.new counts.new out.new }
{
    machine_state::replay::<Layered>(machine, maps, rows, first, n, counts, out)
}

// Puts each row of the file behind the first ones, up to row n, to the plain file under its number in the trace. The counts get the count of
// pieces of each row, and the answer slice the pieces of all reads one after the other. A refusal ends the replay before that row.
pub fn replay_plain(
    plain: Machine,
    map: &mut [u32],
    rows: &[u32],
    first: u32,
    n: u32,
    counts: &mut [u32],
    out: &mut [u32],
) -> Replayed
    ensures { Replays (plain_replay_of (header_of plain) rows.now first n map.old counts.old out.old)
        result map.new counts.new out.new }
{
    machine_state::replay::<Plain>(plain, map, rows, first, n, counts, out)
}
