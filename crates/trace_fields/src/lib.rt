// The questions 8 to 11, put to the fields of one record: its kind, the fields that the kind uses, their numbers, and the end of its range.
#![tactic(auto)]

ghost use Rattle.std.specs.Prelude.{◌≡◌};
ghost use Rattle.csv_content.specs.Content.{content_of};
ghost use Rattle.trace_fields.specs.Rows.{word, told_kind, kind_of, used_by};
ghost use Rattle.trace_fields.specs.Questions.{as_used};
ghost use Rattle.trace_fields.specs.Reads.{fills_as, judged_fields};
ghost use Rattle.trace_numbers.specs.Numbers.{fields_of, told_row};

use csv_field::Span;
use rows::Row;
use rows::kind::Kind;
use rows::refusal::Refusal;
use trace_numbers::Used;

// The word that stands for a kind in a trace.
pub fn word(kind: Kind) -> &'static [u8]
    ensures { result.now ≡ word «kind» }
{
    match kind {
        Kind::Read => b"read",
        Kind::Write => b"write",
        Kind::Commit => b"commit",
        Kind::Open => b"open",
        Kind::Close => b"close",
        Kind::Sync => b"sync",
        Kind::Send => b"send",
        Kind::Recv => b"recv",
        Kind::Wait => b"wait",
        Kind::Barrier => b"barrier",
    }
}

// The kind whose word the field's content is.
fn kind_of(text: &[u8], span: Span) -> Option<Kind>
    ensures { told_kind result ≡ kind_of (content_of text.now span) }
{
    for kind in Kind::ALL {
        if csv_content::is_word(text, span, word(kind)) {
            return Some(kind);
        }
    }
    None
}

// The fields that a kind uses.
#[tactic(auto, using(crate::proofs::Words::uses))]
pub fn used_by(kind: u32) -> Used
    ensures { result ≡ used_by kind }
{
    // By the kind's number, as document 01 has it, since a row may have a number that is no kind.
    match kind {
        // read, write
        rows::READ | rows::WRITE => Used {
            file: true,
            range: true,
            message: false,
        },
        // commit, open, close, sync
        rows::COMMIT | rows::OPEN | rows::CLOSE | rows::SYNC => Used {
            file: true,
            range: false,
            message: false,
        },
        // send, recv, wait, barrier
        rows::SEND | rows::RECV | rows::WAIT | rows::BARRIER => Used {
            file: false,
            range: false,
            message: true,
        },
        _ => Used {
            file: false,
            range: false,
            message: false,
        },
    }
}

// Whether a used field is filled, and any other empty.
fn as_used(text: &[u8], span: Span, used: bool) -> bool
    ensures { result ≡ as_used used (content_of text.now span) }
{
    let empty = csv_content::is_empty(text, span);
    if used { !empty } else { empty }
}

// Question 9: whether the used fields are filled and the others empty.
#[tactic(auto, using(crate::proofs::Judging::by_contents))]
fn filled_as_used(text: &[u8], spans: [Span; 6], used: Used) -> bool
    ensures { result ≡ fills_as used (fields_of text.now spans) }
{
    as_used(text, spans[rows::PROCESS_AT], true)
        && as_used(text, spans[rows::FILE_AT], used.file)
        && as_used(text, spans[rows::OFFSET_AT], used.range)
        && as_used(text, spans[rows::LENGTH_AT], used.range)
        && as_used(text, spans[rows::MESSAGE_AT], used.message)
}

// Puts the questions 8 to 11 to a record of six fields. The text and the spans stay two parameters: a struct of both is no plainer, since every
// clause would name the two through it.
pub fn judge_fields(text: &[u8], spans: [Span; 6], process_limit: u32) -> Result<Row, Refusal>
    ensures { told_row result ≡ judged_fields process_limit (fields_of text.now spans) }
{
    let Some(kind) = kind_of(text, spans[rows::KIND_AT]) else {
        return Err(Refusal::KnownKind);
    };
    let kind = kind.number();
    let used = used_by(kind);
    if !filled_as_used(text, spans, used) {
        return Err(Refusal::UsedFields);
    }
    let row = trace_numbers::read_numbers(text, spans, kind, used, process_limit)?;
    if rows::OFFSET_MAX - row.offset < row.length {
        return Err(Refusal::RangeEnd);
    }
    Ok(row)
}
