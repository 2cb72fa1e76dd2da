// The content of a field by its span: the functions copy nothing.
#![tactic(auto)]

ghost use Rattle.std.specs.Prelude.{◌≡◌, false, ◌&&◌, eqb};
ghost use Rattle.csv_content.specs.Content.{raw_of, content_of, undouble, same_bytes, is_nil};

use csv_field::Span;

// The bytes that a span covers, as far as the text has them.
pub fn raw(text: &[u8], span: Span) -> &[u8]
    ensures { result.now ≡ raw_of text.now span }
{
    let rest = text.get(span.start..).unwrap_or_default();
    rest.get(..span.len).unwrap_or(rest)
}

// Whether the field's content is empty.
#[tactic(auto, using(crate::proofs::Contents::contents))]
pub fn is_empty(text: &[u8], span: Span) -> bool
    ensures { result ≡ is_nil (content_of text.now span) }
{
    raw(text, span).is_empty()
}

// Whether the field's content is the word.
#[tactic(auto, using(crate::proofs::Contents::contents))]
pub fn is_word(text: &[u8], span: Span, word: &[u8]) -> bool
    ensures { result ≡ same_bytes (content_of text.now span) word.now }
{
    let part = raw(text, span);
    if span.doubled {
        same_undoubled(part, word)
    } else {
        part == word
    }
}

// Whether the byte x is the second of two quotes side by side; `kept` says that the byte before is a quote and belongs to the content.
fn is_second(x: u8, kept: bool) -> bool
    ensures { result ≡ (eqb x 0x22 && kept) }
{
    x == b'"' && kept
}

// Whether a, with each two quotes side by side as one, is b.
fn same_undoubled(a: &[u8], b: &[u8]) -> bool
    ensures { result ≡ same_bytes (undouble false a.now) b.now }
{
    let mut j = 0;
    let mut kept = false;
    // The place in `b` is counted by hand: it stays where a second quote is passed over.
    for x in a {
        if is_second(*x, kept) {
            kept = false;
            continue;
        }
        if b.len() <= j {
            return false;
        }
        if *x != b[j] {
            return false;
        }
        kept = *x == b'"';
        j += 1;
    }
    j == b.len()
}
