// A table by message, to which rows are put one after the other: whether a row's message is in order behind the rows before it.
#![tactic(auto)]

ghost use Rattle.std.specs.Prelude.{◌≡◌, not, ◌&&◌, set, replicate};
ghost use Rattle.rows.specs.Limits.{MESSAGES};
ghost use Rattle.rows.specs.Questions.{first_no};
ghost use Rattle.rows.specs.Refusals.{Asks};
ghost use Rattle.messages.specs.Table.{is_sent, is_posted, is_waited, is_sent_by, is_posted_by, with_send, with_post, with_wait};
ghost use Rattle.messages.specs.Table.{entry_for, entry_in_order, entry_wait_in_order, table_questions, noted_row, table_after};

use rows::Row;
use rows::kind::Kind;
use rows::refusal::Refusal;

// The table has one entry for each message.
pub const ENTRIES: usize = rows::MESSAGES as usize;
// The flag of an entry whose message was sent. An entry packs its flags and two processes into 16 bits: fixed memory, 128 KB for the table.
const SENT: u16 = 4096;
// The flag of an entry whose message's receive was posted.
const POSTED: u16 = 8192;
// The flag of an entry whose message was waited for.
const WAITED: u16 = 16384;
// How many values six bits have. An entry's lowest six bits hold the process that sent the message, the next six the one that posted its receive.
const SIX_BITS: u16 = 64;

// What the rows so far did with each message.
#[derive(Drop)]
pub struct MessageTable {
    pub entries: [u16; ENTRIES],
}

impl MessageTable {
    // A table to which no row was put.
    pub fn new() -> Self
        ensures { result.entries ≡ replicate MESSAGES 0 }
    {
        MessageTable {
            entries: [0; ENTRIES],
        }
    }

    // Puts a row to the table: answers the first No of the questions from 12 on, if there is one. The table notes a row that passes; a
    // refusal changes nothing.
    #[tactic(auto, unfolding(crate::specs::Table::table_questions, crate::specs::Table::table_after, rows::specs::Questions::first_no))]
    pub fn put(&mut self, row: Row) -> Result<(), Refusal>
        ensures answer { Asks (first_no (table_questions self.old.entries row)) result }
        ensures left { self.new.entries ≡ table_after self.old.entries row }
    {
        let entry = entry_for(&self.entries, row);
        if !entry_in_order(entry, row) {
            return Err(Refusal::MessageOrder);
        }
        if !wait_in_order(entry, row) {
            return Err(Refusal::WaitOrder);
        }
        note(&mut self.entries, row);
        Ok(())
    }

    // Whether a row put to the table has sent the row's message.
    pub fn has_sent(&self, row: Row) -> bool
        ensures { result ≡ is_sent (entry_for self.now.entries row) }
    {
        is_sent(entry_for(&self.entries, row))
    }
}

// Answers the entry of the row's message. A message past the table has none, and 0 stands for it.
fn entry_for(table: &[u16], row: Row) -> u16
    ensures { result ≡ entry_for table.now row }
{
    table.get(row.message as usize).copied().unwrap_or(0)
}

// Whether the row's message is in order, by the message's entry: question 12.
#[tactic(auto, unfolding(crate::specs::Table::entry_in_order))]
fn entry_in_order(entry: u16, row: Row) -> bool
    ensures { result ≡ entry_in_order entry row }
{
    match Kind::try_from(row.kind) {
        Ok(Kind::Send) => may_send(entry, row.process),
        Ok(Kind::Recv) => may_post(entry, row.process),
        _ => true,
    }
}

// Whether a process may send the message: no row sent it, and the process did not post its receive.
fn may_send(entry: u16, process: u32) -> bool
    ensures { result ≡ (not (is_sent entry) && not (is_posted_by process entry)) }
{
    !is_sent(entry) && !is_posted_by(entry, process)
}

// Whether a process may post a receive of the message: none is posted, and the process did not send it.
fn may_post(entry: u16, process: u32) -> bool
    ensures { result ≡ (not (is_posted entry) && not (is_sent_by process entry)) }
{
    !is_posted(entry) && !is_sent_by(entry, process)
}

// Whether a wait is in order, by the entry of its message: question 21. A row of another kind is.
#[tactic(auto, unfolding(crate::specs::Table::entry_wait_in_order))]
fn wait_in_order(entry: u16, row: Row) -> bool
    ensures { result ≡ entry_wait_in_order entry row }
{
    match Kind::try_from(row.kind) {
        Ok(Kind::Wait) => is_posted_by(entry, row.process) && is_sent(entry) && !is_waited(entry),
        _ => true,
    }
}

// Whether the message was sent.
fn is_sent(entry: u16) -> bool
    ensures { result ≡ is_sent entry }
{
    entry / SENT % 2 == 1
}

// Whether a receive of the message was posted.
fn is_posted(entry: u16) -> bool
    ensures { result ≡ is_posted entry }
{
    entry / POSTED % 2 == 1
}

// Whether the message was waited for.
fn is_waited(entry: u16) -> bool
    ensures { result ≡ is_waited entry }
{
    entry / WAITED % 2 == 1
}

// Whether the process sent the message.
fn is_sent_by(entry: u16, process: u32) -> bool
    ensures { result ≡ is_sent_by process entry }
{
    is_sent(entry) && u32::from(entry % SIX_BITS) == process
}

// Whether the process posted the message's receive.
fn is_posted_by(entry: u16, process: u32) -> bool
    ensures { result ≡ is_posted_by process entry }
{
    is_posted(entry) && u32::from(entry / SIX_BITS % SIX_BITS) == process
}

// Notes a send, a recv or a wait in the entry of its message. Rows of other kinds change nothing.
#[tactic(auto, unfolding(crate::specs::Table::noted_row))]
fn note(table: &mut [u16], row: Row)
    ensures { table.new ≡ noted_row table.old row }
{
    let entry = entry_for(table, row);
    match Kind::try_from(row.kind) {
        Ok(Kind::Send) => store(table, row.message, with_send(entry, row.process)),
        Ok(Kind::Recv) => store(table, row.message, with_post(entry, row.process)),
        Ok(Kind::Wait) => store(table, row.message, with_wait(entry)),
        _ => {}
    }
}

// Stores the entry of a message. A message past the table changes nothing.
fn store(table: &mut [u16], message: u32, entry: u16)
    ensures { table.new ≡ set table.old message entry }
{
    // By its index: of an element that was lent by `get_mut` a proof keeps nothing.
    let m = message as usize;
    if m < table.len() {
        table[m] = entry;
    }
}

// Answers the entry with a send by the process noted. Every other bit stays.
fn with_send(entry: u16, process: u32) -> u16
    ensures { result ≡ with_send process entry }
{
    let sender = (process % SIX_BITS as u32) as u16;
    entry / POSTED * POSTED + SENT + entry / SIX_BITS % SIX_BITS * SIX_BITS + sender
}

// Answers the entry with a receive posted by the process noted. Every other bit stays.
fn with_post(entry: u16, process: u32) -> u16
    ensures { result ≡ with_post process entry }
{
    let poster = (process % SIX_BITS as u32) as u16;
    entry / WAITED * WAITED
        + POSTED
        + entry / SENT % 2 * SENT
        + poster * SIX_BITS
        + entry % SIX_BITS
}

// Answers the entry with a wait noted. Every other bit stays.
fn with_wait(entry: u16) -> u16
    ensures { result ≡ with_wait entry }
{
    entry / (2 * WAITED) * (2 * WAITED) + WAITED + entry % WAITED
}
