// The chooser: what stands next in each file, which of the two records comes next, and the part of its file that the record is.
ghost use Rattle.std.specs.Prelude.{◌≡◌, ◌+◌, ◌-◌, ◌≤◌, false, IfOk, IfErr, replicate};
ghost use Rattle.rows.specs.Limits.{ROWS, PROCESSES, MESSAGES};
ghost use Rattle.rows.specs.Questions.{first_no};
ghost use Rattle.barriers.specs.Tables.{noted_stand, noted_arrival};
ghost use Rattle.join.specs.Choosing.{next_in, stepped, unsent_by, waits_by, ready_by, turn_by, part_named};
ghost use Rattle.join.specs.Taking.{table_takes, table_taken};
ghost use Rattle.join.specs.Answers.{file_number, told_next, told_choice, told_turn, choice_by, Readies, AsksAt};

use barriers::BarrierTable;
use csv_field::Span;
use messages::MessageTable;
use rows::Row;
use rows::kind::Kind;
use rows::refusal::{Refusal, Refused};

// One of the two files.
#[derive(Clone, Copy, Debug, PartialEq, Eq, Hash)]
pub enum File {
    First = 1,
    Second = 2,
}

impl File {
    // The file's number.
    pub fn number(self) -> u32
        ensures { result ≡ file_number self }
    {
        self as u32
    }
}

// A record that stands next in a file: its row, where it starts, where it ends before its line end, and where the record behind it starts.
#[derive(Clone, Copy, Debug, PartialEq, Eq, Hash)]
pub struct Next {
    pub row: Row,
    pub start: usize,
    pub end: usize,
    pub behind: usize,
}

// The record that comes next: the file that holds it, where it starts there, and where it ends before its line end.
#[derive(Clone, Copy, Debug, PartialEq, Eq, Hash)]
pub struct Choice {
    pub file: File,
    pub start: usize,
    pub end: usize,
}

// Reads what stands at a place of a file, if a record with a row does.
pub(crate) fn next_at(text: &[u8], at: usize, process_limit: u32) -> Option<Next>
    ensures { told_next result ≡ next_in process_limit text.now at }
{
    let Ok(Some(record)) = csv_records::read_record(text, at, text.len()) else {
        return None;
    };
    let Ok(row) = trace_fields::judge_fields(text, record.spans, process_limit) else {
        return None;
    };
    Some(Next {
        row,
        start: at,
        end: record.end,
        behind: record.next,
    })
}

// Answers what stands next in a file after a turn: the record behind, where the turn took this file's record.
pub(crate) fn step(text: &[u8], next: Option<Next>, taken: bool, process_limit: u32) -> Option<Next>
    ensures { told_next result ≡ stepped taken process_limit text.now (told_next next) }
{
    if taken {
        return next_at(text, next.map_or(0, |next| next.behind), process_limit);
    }
    next
}

// What the rows taken so far did with their messages, and at which barriers they arrived.
#[derive(Drop)]
pub(crate) struct Tables {
    pub(crate) messages: MessageTable,
    pub(crate) barriers: BarrierTable,
}

impl Tables {
    // No row was taken, and so many processes have rows in the files.
    pub(crate) fn new(processes: u32) -> Self
        ensures messages { result.messages.entries ≡ replicate MESSAGES 0 }
        ensures stands { result.barriers.stands ≡ replicate PROCESSES 0 }
        ensures arrivals { result.barriers.arrivals ≡ replicate MESSAGES 0 }
        ensures processes { result.barriers.processes ≡ processes }
    {
        Tables {
            messages: MessageTable::new(),
            barriers: BarrierTable::new(processes),
        }
    }

    // Chooses the record that comes next: that of the first file, unless this file is at its end or its next row waits; then that of the second
    // on the same condition. Where both files are at their end there is none, and where only waiting rows are left the join is stuck.
    #[tactic(auto, unfolding(crate::specs::Choosing::turn_by, crate::specs::Choosing::ready_by))]
    pub(crate) fn choose(
        &self,
        first: Option<Next>,
        second: Option<Next>,
    ) -> Result<Option<Choice>, Refusal>
        ensures turn { told_turn result ≡ turn_by self.now.messages.entries self.now.barriers.stands self.now.barriers.arrivals self.now.barriers.processes (told_next first) (told_next second) }
        ensures stuck { IfErr result (λ refusal. refusal ≡ Refusal.Stuck) }
    {
        if let Some(next) = self.ready(first) {
            return Ok(Some(choice_of(File::First, next)));
        }
        if let Some(next) = self.ready(second) {
            return Ok(Some(choice_of(File::Second, next)));
        }
        if first.is_some() || second.is_some() {
            return Err(Refusal::Stuck);
        }
        Ok(None)
    }

    // What stands next in a file, unless its row waits.
    #[tactic(auto, unfolding(crate::specs::Choosing::ready_by))]
    fn ready(&self, next: Option<Next>) -> Option<Next>
        ensures { Readies (ready_by self.now.messages.entries self.now.barriers.stands self.now.barriers.arrivals self.now.barriers.processes (told_next next)) next result }
    {
        next.filter(|next| !self.waits(next.row))
    }

    // Whether a row waits: a message arrives at it that no row taken has sent, or its process stands at an unfinished barrier.
    #[tactic(auto, unfolding(crate::specs::Choosing::waits_by))]
    fn waits(&self, row: Row) -> bool
        ensures { result ≡ waits_by self.now.messages.entries self.now.barriers.stands self.now.barriers.arrivals self.now.barriers.processes row }
    {
        is_unsent(&self.messages, row) || self.barriers.is_held(row)
    }

    // Takes a row behind n rows: puts 6 and the questions from 12 on to it, and a refusal has its place. The tables note a row that passes.
    #[tactic(auto, unfolding(crate::specs::Taking::table_takes, rows::specs::Questions::first_no))]
    pub(crate) fn take(&mut self, row: Row, n: u32, row_limit: u32) -> Result<(), Refused>
        requires { n ≤ ROWS }
        ensures answer { AsksAt (n + 1) (first_no (table_takes row_limit n self.old.messages.entries row)) result }
        ensures messages { IfOk result (λ _. self.new.messages.entries ≡ table_taken row_limit n self.old.messages.entries row) }
        ensures stands { IfOk result (λ _. self.new.barriers.stands ≡ noted_stand self.old.barriers.stands row) }
        ensures arrivals { IfOk result (λ _. self.new.barriers.arrivals ≡ noted_arrival self.old.barriers.arrivals row) }
        ensures processes { self.new.barriers.processes ≡ self.old.barriers.processes }
    {
        if row_limit <= n {
            return Err(Refusal::RowLimit.at(n + 1));
        }
        self.messages.put(row).map_err(|refusal| refusal.at(n + 1))?;
        self.barriers.note(row);
        Ok(())
    }
}

// Whether a message arrives at a row that no row put to the table has sent.
#[tactic(auto, unfolding(crate::specs::Choosing::unsent_by))]
fn is_unsent(messages: &MessageTable, row: Row) -> bool
    ensures { result ≡ unsent_by messages.now.entries row }
{
    row.kind == Kind::ARRIVAL.number() && !messages.has_sent(row)
}

// The record that stands next in a file, as a choice.
fn choice_of(file: File, next: Next) -> Choice
    ensures { told_choice result ≡ choice_by file next }
{
    Choice {
        file,
        start: next.start,
        end: next.end,
    }
}

// Hands over the record that was chosen, as a part of the file that holds it, without its line end. The file is named by its number, as the places of
// a join's rows name it, and any number but 1 names the second: this clause holds for every number.
#[tactic(auto, unfolding(crate::specs::Choosing::part_named))]
pub fn hand_over<'a>(
    first: &'a [u8],
    second: &'a [u8],
    file: u32,
    start: usize,
    end: usize,
) -> &'a [u8]
    ensures { result.now ≡ part_named first.now second.now record { file = file; start = start; end = end } }
{
    let span = Span {
        start,
        len: end.saturating_sub(start),
        doubled: false,
    };
    if file == File::First.number() {
        csv_content::raw(first, span)
    } else {
        csv_content::raw(second, span)
    }
}

// Reads the row of a record that was handed over, and a row of zeros where it has none.
#[tactic(auto, unfolding(rows::specs::Rows::row_here))]
pub(crate) fn row_of(part: &[u8], process_limit: u32) -> Row
    ensures { result ≡ (next_in process_limit part.now 0).row }
{
    match next_at(part, 0, process_limit) {
        Some(next) => next.row,
        None => Row::from([0; rows::FIELDS]),
    }
}
