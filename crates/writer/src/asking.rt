// The questions from 8 on, put to rows that are given by their numbers.
ghost use Rattle.std.specs.Prelude.{◌≡◌, [], ◌≤◌, ◌++◌, IfOk, replicate};
ghost use Rattle.rows.specs.Limits.{PROCESSES, MESSAGES};
ghost use Rattle.rows.specs.Questions.{first_no};
ghost use Rattle.rows.specs.Refusals.{Asks};
ghost use Rattle.rows.specs.Rows.{rows_in};
ghost use Rattle.messages.specs.Table.{table_questions, table_after};
ghost use Rattle.writer.specs.Writing.{zero_unless, zero_but, below_if, below_of, number_questions, ask_rows, asked_of};
ghost use Rattle.writer.specs.Answers.{told_asked};

use messages::MessageTable;
use rows::Row;
use rows::kind::Kind;
use rows::refusal::{Refusal, Refused};
use trace_numbers::Used;

// Asks the first n rows one after the other, by a table to which no row was put.
pub(crate) fn ask_rows(
    table: &mut MessageTable,
    rows: &[u32],
    n: u32,
    process_limit: u32,
) -> Result<(), Refused>
    requires few { process_limit ≤ PROCESSES }
    requires new_table { table.old.entries ≡ replicate MESSAGES 0 }
    ensures { told_asked result ≡ asked_of (ask_rows process_limit [] (rows_in n rows.now)) }
{
    // The row's number counts from 1 and has 32 bits, which `enumerate` has not.
    let mut number = 0;
    for row in rows::first_rows(rows, n as usize) {
        number += 1;
        ask_row(table, row, process_limit).map_err(|refusal| refusal.at(number))?;
    }
    Ok(())
}

// Puts the questions from 8 on to a row. The table notes a row that passes.
fn ask_row(table: &mut MessageTable, row: Row, process_limit: u32) -> Result<(), Refusal>
    ensures answer { Asks (first_no (number_questions process_limit row ++ table_questions table.old.entries row)) result }
    ensures left { IfOk result (λ _. table.new.entries ≡ table_after table.old.entries row) }
{
    ask_numbers(row, process_limit)?;
    table.put(row)
}

// Puts the questions 8 to 11 to a row.
#[tactic(auto, unfolding(crate::specs::Writing::number_questions, rows::specs::Questions::first_no))]
fn ask_numbers(row: Row, process_limit: u32) -> Result<(), Refusal>
    ensures { Asks (first_no (number_questions process_limit row)) result }
{
    if Kind::try_from(row.kind).is_err() {
        return Err(Refusal::KnownKind);
    }
    let used = trace_fields::used_by(row.kind);
    if !zero_but(row, used) {
        return Err(Refusal::UsedFields);
    }
    if !below_of(row, used, process_limit) {
        return Err(Refusal::Range);
    }
    if rows::OFFSET_MAX - row.offset < row.length {
        return Err(Refusal::RangeEnd);
    }
    Ok(())
}

// Whether every number of a row that is not among the used ones is 0.
#[tactic(auto, unfolding(crate::specs::Writing::zero_but))]
fn zero_but(row: Row, used: Used) -> bool
    ensures { result ≡ zero_but used row }
{
    zero_unless(used.file, row.file)
        && zero_unless(used.range, row.offset)
        && zero_unless(used.range, row.length)
        && zero_unless(used.message, row.message)
}

// Whether a number is used or 0.
fn zero_unless(used: bool, n: u32) -> bool
    ensures { result ≡ zero_unless used n }
{
    used || n == 0
}

// Whether a row's process and its used numbers are below their bounds. Offsets and lengths of 32 bits are.
#[tactic(auto, unfolding(crate::specs::Writing::below_of))]
fn below_of(row: Row, used: Used, process_limit: u32) -> bool
    ensures { result ≡ below_of used process_limit row }
{
    row.process < process_limit
        && below_if(used.file, rows::FILES, row.file)
        && below_if(used.message, rows::MESSAGES, row.message)
}

// Whether a number is below its bound or not used.
fn below_if(used: bool, below: u32, n: u32) -> bool
    ensures { result ≡ below_if used below n }
{
    !used || n < below
}
