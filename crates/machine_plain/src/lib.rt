// The plain file: its state, and what a row does to it.
#![tactic(auto)]

ghost use Rattle.std.specs.Prelude.{◌*◌, ◌≡◌, true, length};
ghost use Rattle.machine_meaning.specs.States.{lawful_plain};
ghost use Rattle.machine_meaning.specs.Steps.{plain_making_questions, plain_step_of};
ghost use Rattle.machine_state.specs.Answers.{header_of};

use machine_state::{File, Machine};
use rows::Row;
use rows::refusal::Refusal;

// The plain file: one map, without marks.
#[derive(Clone, Copy, Debug, PartialEq, Eq, Hash)]
pub struct Plain;

impl File for Plain {
    ghost use Rattle.machine_plain.specs.Laws.{map_numbers, has_limits, asks-making, asks-state};
    ghost use Rattle.machine_plain.specs.Keeping.{plain-preserves};

    ghost lawful = { lawful_plain };

    ghost step = { plain_step_of };

    ghost questions = { plain_making_questions };

    ghost size = { map_numbers };

    ghost limits = { has_limits };

    ghost asks = { asks-making };

    ghost asks_state = { asks-state };

    ghost keeps = { plain-preserves };

    fn is_lawful(plain: Machine, map: &[u32]) -> bool {
        is_plain(plain, map)
    }

    fn has_limits(plain: Machine) -> bool {
        rows::is_process_limit(plain.process_limit)
    }

    fn map_runs(plain: Machine) -> u64 {
        plain.map_space as u64
    }

    fn advance(
        plain: Machine,
        map: &mut [u32],
        row: Row,
        number: u32,
        out: &mut [u32],
    ) -> Result<Option<u32>, Refusal> {
        machine_state::ask_row(plain, row, number)?;
        let size = 4 * plain.map_space as usize;
        let offset = row.offset;
        let length = row.length;
        // By the kind's number, as document 01 has it.
        match row.kind {
            rows::READ => extents::lawful::list_range(&map[..size], offset, length, out).map(Some),
            rows::WRITE => {
                let written = extents::lawful::write(
                    &mut map[..size],
                    offset,
                    length,
                    number,
                    false,
                );
                written.map(|()| None)
            }
            _ => Ok(None),
        }
    }
}

// Whether the plain file is lawful: limits as for making, a slice that is long enough, and a lawful map without marks.
pub fn is_plain(plain: Machine, map: &[u32]) -> bool
    ensures { result ≡ lawful_plain (header_of plain) map.now }
{
    let space = plain.map_space as usize;
    if !rows::is_process_limit(plain.process_limit) {
        return false;
    }
    if Machine::FILES <= plain.file {
        return false;
    }
    if map.len() / 4 < space {
        return false;
    }
    let size = 4 * space;
    extents::is_published(&map[..size])
}
