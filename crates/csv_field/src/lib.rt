// One field of a text, found by its bytes.
#![tactic(auto)]

ghost use Rattle.std.specs.Prelude.{◌≡◌, false, ◌+◌, ◌<◌, get_or, drop, eqb, not};
ghost use Rattle.csv_field.specs.FieldReading.{is_text, is_quoted, text_length, quotes, after_cr, stop_of, quoted_at, field_at};

// Where a field's bytes stand, without the quotes around them. `doubled` says that two quotes side by side stand among them, which are
// one byte of the content.
#[derive(Clone, Copy, Debug, PartialEq, Eq, Hash)]
pub struct Span {
    pub start: usize,
    pub len: usize,
    pub doubled: bool,
}

// The bytes after an opening quote: they hold no closing quote; a byte that quotes may not hold comes first; or the closing quote stands
// after `.0` bytes, and `.1` says that two quotes side by side stand before it. An enum of its own: as a Result of an Option the two ways to have no
// closing quote would lose their names.
#[derive(Clone, Copy, Debug, PartialEq, Eq, Hash)]
pub enum Quotes {
    Unclosed,
    Broken,
    Closed(usize, bool),
}

// What follows a field: a comma; CR LF; the end of the text; a byte that may not follow; or the limit, past which the reader may not look.
#[derive(Clone, Copy, Debug, PartialEq, Eq, Hash)]
pub enum Stop {
    Comma,
    LineEnd,
    TextEnd,
    Bad,
    Cut,
}

// A field: its span, the place after the field and its quotes, and what follows there.
#[derive(Clone, Copy, Debug, PartialEq, Eq, Hash)]
pub struct ScannedField {
    pub span: Span,
    pub end: usize,
    pub stop: Stop,
}

// TEXTDATA = %x20-21 / %x23-2B / %x2D-7E. Letters and digits, most bytes of a trace, need one range test alone.
fn is_text(b: u8) -> bool
    ensures { result ≡ is_text b }
{
    if b < 0x2D {
        return is_low_text(b);
    }
    b <= 0x7E
}

// The TEXTDATA below %x2D: all from %x20 on but the quote and the comma.
#[tactic(auto, using(crate::proofs::Bytes::low_texts))]
fn is_low_text(b: u8) -> bool
    requires { b < 0x2D }
    ensures { result ≡ is_text b }
{
    0x20 <= b && b != b'"' && b != b','
}

// A byte that quotes may hold besides the quote: TEXTDATA / COMMA / CR / LF.
#[tactic(auto, unfolding(crate::specs::FieldReading::is_quoted))]
fn is_quoted(b: u8) -> bool
    ensures { result ≡ is_quoted b }
{
    is_text(b) || matches!(b, b',' | b'\r' | b'\n')
}

// A quote stands at the place.
fn quote_at(s: &[u8], at: usize) -> bool
    ensures { result ≡ eqb (get_or s.now at 0) 0x22 }
{
    s.get(at) == Some(&b'"')
}

// The place of the first byte at or after `at` that is no TEXTDATA, or the end. By places: `position` on a part of the text takes 1.2 times as long.
fn skip_text(s: &[u8], at: usize) -> usize
    ensures { result ≡ at + text_length (drop at s.now) }
{
    for i in at..s.len() {
        if !is_text(s[i]) {
            return i;
        }
    }
    at.max(s.len())
}

// Looks for the closing quote from `at`, the byte after the opening quote.
fn find_quote(s: &[u8], at: usize) -> Quotes
    ensures { result ≡ quotes 0 false (drop at s.now) }
{
    let mut i = at;
    let mut doubled = false;
    // A `while`: the step is two bytes where two quotes stand side by side.
    while i < s.len() {
        let b = s[i];
        if b == b'"' {
            if !quote_at(s, i + 1) {
                return Quotes::Closed(i - at, doubled);
            }
            doubled = true;
            i += 2;
        } else {
            if !is_quoted(b) {
                return Quotes::Broken;
            }
            i += 1;
        }
    }
    Quotes::Unclosed
}

// What follows a field where a CR stands before `at`. `cut` says that the text goes on behind s.
#[tactic(auto, using(crate::proofs::Steps::after_crs))]
fn after_cr(s: &[u8], cut: bool, at: usize) -> Stop
    ensures { result ≡ after_cr cut (drop at s.now) }
{
    if at < s.len() {
        if s[at] == b'\n' {
            return Stop::LineEnd;
        }
        return Stop::Bad;
    }
    if cut { Stop::Cut } else { Stop::Bad }
}

// What follows a field that ends at `at`. `cut` says that the text goes on behind s.
#[tactic(auto, using(crate::proofs::Steps::after_fields))]
fn stop_at(s: &[u8], cut: bool, at: usize) -> Stop
    ensures { result ≡ stop_of cut (drop at s.now) }
{
    if at < s.len() {
        match s[at] {
            b',' => Stop::Comma,
            b'\r' => after_cr(s, cut, at + 1),
            _ => Stop::Bad,
        }
    } else if cut {
        Stop::Cut
    } else {
        Stop::TextEnd
    }
}

// Finds the field at `at`. `cut` says that the text goes on behind s, past the limit.
#[tactic(auto, using(crate::proofs::ScannedFields::fields))]
pub fn field_at(s: &[u8], cut: bool, at: usize) -> ScannedField
    ensures { result ≡ field_at s.now cut at }
{
    if quote_at(s, at) {
        return quoted_field(s, cut, at + 1);
    }
    let end = skip_text(s, at);
    let span = Span {
        start: at,
        len: end - at,
        doubled: false,
    };
    let stop = stop_at(s, cut, end);
    ScannedField { span, end, stop }
}

// Finds a field in quotes; `at` is the byte after the opening quote.
#[tactic(auto, using(crate::proofs::ScannedFields::fields))]
fn quoted_field(s: &[u8], cut: bool, at: usize) -> ScannedField
    ensures { result ≡ quoted_at s.now cut at }
{
    let none = Span {
        start: 0,
        len: 0,
        doubled: false,
    };
    match find_quote(s, at) {
        Quotes::Broken => ScannedField {
            span: none,
            end: 0,
            stop: Stop::Bad,
        },
        Quotes::Unclosed => {
            if cut {
                ScannedField {
                    span: none,
                    end: 0,
                    stop: Stop::Cut,
                }
            } else {
                ScannedField {
                    span: none,
                    end: 0,
                    stop: Stop::Bad,
                }
            }
        }
        Quotes::Closed(len, doubled) => {
            let end = at + len + 1;
            let span = Span {
                start: at,
                len,
                doubled,
            };
            let stop = stop_at(s, cut, end);
            ScannedField { span, end, stop }
        }
    }
}
