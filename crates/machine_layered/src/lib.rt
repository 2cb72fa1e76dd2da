// The layered file: its state, and what a row does to it.
#![tactic(auto)]

ghost use Rattle.std.specs.Prelude.{ℕ, suc, ◌+◌, ◌*◌, ◌≤◌, ◌<◌, ◌≡◌, true, List, length, take, drop};
ghost use Rattle.rows.specs.Counting.{all_below};
ghost use Rattle.extents_meaning.specs.Maps.{lawful};
ghost use Rattle.machine_meaning.specs.States.{maps_length, lawful_state};
ghost use Rattle.machine_meaning.specs.Steps.{making_questions, step_of};
ghost use Rattle.extents.specs.Answers.{told_done, told_listed};
ghost use Rattle.machine_state.specs.Answers.{header_of, Steps, Ready};

use machine_state::{File, Machine};
use rows::Row;
use rows::refusal::Refusal;

// The layered file: the published map stands first in its slice, then the view of each process.
#[derive(Clone, Copy, Debug, PartialEq, Eq, Hash)]
pub struct Layered;

impl File for Layered {
    ghost use Rattle.machine_layered.specs.Laws.{has_limits, asks-making, asks-state};
    ghost use Rattle.machine_layered.specs.Keeping.{step-preserves};

    ghost lawful = { lawful_state };

    ghost step = { step_of };

    ghost questions = { making_questions };

    ghost size = { maps_length };

    ghost limits = { has_limits };

    ghost asks = { asks-making };

    ghost asks_state = { asks-state };

    ghost keeps = { step-preserves };

    fn is_lawful(machine: Machine, maps: &[u32]) -> bool {
        is_state(machine, maps)
    }

    fn has_limits(machine: Machine) -> bool {
        machine.model < Machine::MODELS && rows::is_process_limit(machine.process_limit)
    }

    fn map_runs(machine: Machine) -> u64 {
        machine.map_space as u64 * (machine.process_limit as u64 + 1)
    }

    fn advance(
        machine: Machine,
        maps: &mut [u32],
        row: Row,
        number: u32,
        out: &mut [u32],
    ) -> Result<Option<u32>, Refusal> {
        machine_state::ask_row(machine, row, number)?;
        // By the kind's number, as document 01 has it.
        match row.kind {
            rows::READ => read(machine, maps, row, number, out).map(Some),
            rows::WRITE => write(machine, maps, row, number).map(|()| None),
            _ => share(machine, maps, row, number).map(|()| None),
        }
    }
}

// Whether the state is lawful: a header as for making, a slice that is long enough, and lawful maps in it.
pub fn is_state(machine: Machine, maps: &[u32]) -> bool
    ensures { result ≡ lawful_state (header_of machine) maps.now }
{
    let limit = machine.process_limit;
    let space = machine.map_space;
    if Machine::MODELS <= machine.model {
        return false;
    }
    if !rows::is_process_limit(limit) {
        return false;
    }
    if Machine::FILES <= machine.file {
        return false;
    }
    if ((maps.len() / 4) as u64) < space as u64 * (limit as u64 + 1) {
        return false;
    }
    let size = 4 * space as usize;
    if !extents::is_published(&maps[..size]) {
        return false;
    }
    are_lawful(maps, size, limit as usize)
}

// Whether the maps behind the first one are lawful.
fn are_lawful(maps: &[u32], size: usize, n: usize) -> bool
    requires { (n + 1) * size ≤ length maps.now }
    ensures { result ≡ all_below n (λ p. lawful (take size (drop (suc p * size) maps.now))) }
{
    // By the maps' places: a map's size is a number of the header, which may be 0, and `chunks_exact` takes none of 0.
    for p in 0..n {
        let at = (p + 1) * size;
        if !extents::is_lawful(&maps[at..at + size]) {
            return false;
        }
    }
    true
}

// A read refreshes first where the table says so, then lists its range.
fn read(
    machine: Machine,
    maps: &mut [u32],
    row: Row,
    number: u32,
    out: &mut [u32],
) -> Result<u32, Refusal>
    requires { Ready (header_of machine) maps.old row number × (row.kind ≡ 0) }
    ensures { Steps (step_of (header_of machine) maps.old row number out.old) (told_listed result) maps.new out.new }
{
    let space = machine.map_space as usize;
    let view = row.process as usize + 1;
    let offset = row.offset;
    let length = row.length;
    // By the kind's number, as the table of models is asked everywhere.
    if models::is_refresh(machine.model, rows::READ) {
        return extents::lawful::read(maps, space, view, 0, offset, length, out);
    }
    let size = 4 * space;
    let at = view * size;
    extents::lawful::list_range(&maps[at..at + size], offset, length, out)
}

// A write publishes where the table says so.
fn write(machine: Machine, maps: &mut [u32], row: Row, number: u32) -> Result<(), Refusal>
    requires { Ready (header_of machine) maps.old row number × (row.kind ≡ 1) }
    ensures { (out : List ℕ) → Steps (step_of (header_of machine) maps.old row number out) (told_done result) maps.new out }
{
    let space = machine.map_space as usize;
    let view = row.process as usize + 1;
    let offset = row.offset;
    let length = row.length;
    // By the kind's number, as the table of models is asked everywhere.
    if models::is_publish(machine.model, rows::WRITE) {
        return extents::lawful::write_through(maps, space, view, 0, offset, length, number);
    }
    let size = 4 * space;
    let at = view * size;
    extents::lawful::write(&mut maps[at..at + size], offset, length, number, true)
}

// Any other row publishes, then refreshes, where the table says so.
fn share(machine: Machine, maps: &mut [u32], row: Row, number: u32) -> Result<(), Refusal>
    requires { Ready (header_of machine) maps.old row number × (1 < row.kind) }
    ensures { (out : List ℕ) → Steps (step_of (header_of machine) maps.old row number out) (told_done result) maps.new out }
{
    let model = machine.model;
    let kind = row.kind;
    let space = machine.map_space as usize;
    let view = row.process as usize + 1;
    if models::is_publish(model, kind) {
        if models::is_refresh(model, kind) {
            return extents::lawful::sync(maps, space, view, 0);
        }
        return extents::lawful::publish(maps, space, view, 0);
    }
    if models::is_refresh(model, kind) {
        return extents::lawful::refresh(maps, space, view, 0);
    }
    Ok(())
}
