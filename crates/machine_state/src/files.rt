// A file that rows are put to, layered or plain, and what is done with any such file: making it, stepping and replaying it.
ghost use Rattle.std.specs.Prelude.{◌*◌, ◌≡◌, Bool, true, List, ℕ, length};
ghost use Rattle.rows.specs.declared.row.Row.{Row};
ghost use Rattle.rows.specs.Questions.{Question, first_no};
ghost use Rattle.rows.specs.Refusals.{Asks};
ghost use Rattle.machine_meaning.specs.States.{Header};
ghost use Rattle.machine_meaning.specs.Steps.{Step, made_to};
ghost use Rattle.machine_state.specs.Answers.{header_of, told_step, Steps, put_to};
ghost use Rattle.machine_state.specs.Files.{Preserves, AsksMaking, AsksState};
ghost use Rattle.machine_state.specs.Replays.{replay_by, Replays};

use crate::Machine;
use rows::Row;
use rows::refusal::Refusal;

// A file in the maps of a lent slice. Its functions take a header by value and the slice beside it, as document 01 has them.
pub trait File {
    // What is asked of the maps.
    ghost lawful: { Header → List ℕ → Bool };

    // What a row does to the maps and to an answer slice.
    ghost step: { Header → List ℕ → Row → ℕ → List ℕ → Step };

    // What making asks, of a slice of so many numbers.
    ghost questions: { Header → ℕ → List Question };

    // How many numbers the maps take.
    ghost size: { Header → ℕ };

    // What making asks of the model and of the process limit.
    ghost limits: { Header → Bool };

    // Whether the header is one as for making, the slice long enough, and its maps lawful.
    fn is_lawful(machine: Machine, maps: &[u32]) -> bool
        ensures { result ≡ lawful (header_of machine) maps.now };

    // Whether the model and the process limit are within their limits.
    fn has_limits(machine: Machine) -> bool
        ensures { result ≡ limits (header_of machine) };

    // How many runs the maps have space for.
    fn map_runs(machine: Machine) -> u64
        ensures { 4 * result ≡ size (header_of machine) };

    // Puts a row to lawful maps. A read answers how many pieces it put into the answer slice.
    fn advance(
        machine: Machine,
        maps: &mut [u32],
        row: Row,
        number: u32,
        out: &mut [u32],
    ) -> Result<Option<u32>, Refusal>
        requires { lawful (header_of machine) maps.old ≡ true }
        ensures { Steps (step (header_of machine) maps.old row number out.old) (told_step result) maps.new out.new };

    // Making asks for the slice, then for the limits, then for the file.
    ghost asks: { AsksMaking questions size limits };

    // A step asks for lawful maps first.
    ghost asks_state: { AsksState lawful step };

    // A step leaves lawful maps lawful, and a refusal changes nothing.
    ghost keeps: { (h : Header) → Preserves (lawful h) (step h) };
}

// Makes a file: 0 everywhere in its maps. A refusal changes nothing.
pub fn make<F: File>(machine: Machine, maps: &mut [u32]) -> Result<(), Refusal>
    ensures answer { Asks (first_no (F.questions (header_of machine) (length maps.old))) result }
    ensures left { maps.new ≡ made_to (first_no (F.questions (header_of machine) (length maps.old))) (F.size (header_of machine)) maps.old }
{
    let runs = F::map_runs(machine);
    if ((maps.len() / 4) as u64) < runs {
        return Err(Refusal::ShortSlice);
    }
    if !F::has_limits(machine) {
        return Err(Refusal::Limits);
    }
    if Machine::FILES <= machine.file {
        return Err(Refusal::Range);
    }
    let end = runs as usize * 4;
    maps[..end].fill(0);
    Ok(())
}

// Puts a row of the file to it under a row number. A read's pieces go to the answer slice, and it answers their count.
pub fn step<F: File>(
    machine: Machine,
    maps: &mut [u32],
    row: Row,
    number: u32,
    out: &mut [u32],
) -> Result<Option<u32>, Refusal>
    ensures { Steps (F.step (header_of machine) maps.old row number out.old) (told_step result) maps.new out.new }
{
    if !F::is_lawful(machine, maps) {
        return Err(Refusal::State);
    }
    F::advance(machine, maps, row, number, out)
}

// How far a replay came: the rows gone through, the pieces of its reads, and the refusal of the next row that ended it. What was reached
// before a refusal counts, so this is no `Result`.
#[derive(Clone, Copy, Debug, PartialEq, Eq, Hash)]
pub struct Replayed {
    pub rows: u32,
    pub pieces: usize,
    pub refusal: Option<Refusal>,
}

// Puts each row of the file behind the first ones, up to row n, to it under its number in the trace. The counts get the count of pieces of
// each row, and the answer slice the pieces of all reads one after the other. A refusal ends the replay before that row.
pub fn replay<F: File>(
    machine: Machine,
    maps: &mut [u32],
    rows: &[u32],
    first: u32,
    n: u32,
    counts: &mut [u32],
    out: &mut [u32],
) -> Replayed
    ensures { Replays (replay_by (F.step (header_of machine)) (F.lawful (header_of machine) maps.old) (header_of machine).file
        rows.now first n maps.old counts.old out.old) result maps.new counts.new out.new }
{
    let mut pieces = 0;
    if !crate::slices_fit(rows.len(), counts.len(), n) {
        return Replayed {
            rows: first,
            pieces,
            refusal: Some(Refusal::ShortSlice),
        };
    }
    if !F::is_lawful(machine, maps) {
        return Replayed {
            rows: first,
            pieces,
            refusal: Some(Refusal::State),
        };
    }
    for k in first..n {
        let row = rows::row_at(rows, k as usize);
        let at = pieces * 3;
        match put::<F>(machine, maps, row, k + 1, &mut out[at..]) {
            Ok(listed) => {
                let count = listed.unwrap_or(0);
                counts[k as usize] = count;
                pieces += count as usize;
            }
            Err(refusal) => {
                return Replayed {
                    rows: k,
                    pieces,
                    refusal: Some(refusal),
                };
            }
        }
    }
    Replayed {
        rows: first.max(n),
        pieces,
        refusal: None,
    }
}

// Puts a row to lawful maps if the row is one of the file.
#[tactic(auto, unfolding(crate::specs::Answers::put_to))]
fn put<F: File>(
    machine: Machine,
    maps: &mut [u32],
    row: Row,
    number: u32,
    out: &mut [u32],
) -> Result<Option<u32>, Refusal>
    requires { F.lawful (header_of machine) maps.old ≡ true }
    ensures { Steps (put_to (F.step (header_of machine)) (header_of machine).file maps.old row number out.old)
        (told_step result) maps.new out.new }
{
    if !crate::is_of(machine, row) {
        return Ok(None);
    }
    F::advance(machine, maps, row, number, out)
}
