// Puts bytes and decimal numbers into a lent slice from an index on. Where there is no room nothing is put, and the answer is that index.
#![tactic(auto)]

ghost use Rattle.std.specs.Prelude.{◌+◌, ◌≤◌, ◌<◌, ◌≡◌, length};
ghost use Rattle.print.specs.Decimal.{BASE, DIGIT_0, WIDTH, digits_of, width_of, decimal_of};
ghost use Rattle.print.specs.Puts.{lay, put_in, put_end};

// Numbers are decimal.
const BASE: u32 = 10;

// The byte of the digit 0.
const DIGIT_0: u8 = 48;

// Puts bytes and answers the index behind them.
#[tactic(auto, unfolding(crate::specs::Puts::put_in, crate::specs::Puts::put_end))]
pub fn put(out: &mut [u8], at: usize, bytes: &[u8]) -> usize
    ensures answer { result ≡ put_end out.old at bytes.now }
    ensures left { out.new ≡ put_in out.old at bytes.now }
{
    if out.len() < bytes.len() || out.len() - bytes.len() < at {
        return at;
    }
    // Byte by byte: the library's copy of as many bytes as a slice has is a call of C's `memmove`, which the static library needs for nothing else.
    for i in 0..bytes.len() {
        out[at + i] = bytes[i];
    }
    at + bytes.len()
}

// Puts a number's decimal digits and answers the index behind them.
#[tactic(auto, using(crate::proofs::Laying::number_lengths), unfolding(crate::specs::Puts::put_in, crate::specs::Puts::put_end, crate::specs::Decimal::decimal_of))]
pub fn put_number(out: &mut [u8], at: usize, n: u32) -> usize
    ensures answer { result ≡ put_end out.old at (decimal_of n) }
    ensures left { out.new ≡ put_in out.old at (decimal_of n) }
{
    let width = width_of(n);
    if out.len() < width || out.len() - width < at {
        return at;
    }
    put_digits(out, at, n, width);
    at + width
}

// Answers how many digits a number has. By comparisons: they are plainer than a loop, and each answer is proved without a lemma.
#[tactic(auto, unfolding(crate::specs::Decimal::width_within))]
pub fn width_of(n: u32) -> usize
    ensures width { result ≡ width_of n }
    ensures most { result ≤ WIDTH }
{
    if n < 10 {
        return 1;
    }
    if n < 100 {
        return 2;
    }
    if n < 1000 {
        return 3;
    }
    if n < 10000 {
        return 4;
    }
    if n < 100000 {
        return 5;
    }
    if n < 1000000 {
        return 6;
    }
    if n < 10000000 {
        return 7;
    }
    if n < 100000000 {
        return 8;
    }
    if n < 1000000000 {
        return 9;
    }
    10
}

// Puts the last digits of a number. By hand: the bytes go into a lent slice, and std's formatting wants a writer.
fn put_digits(out: &mut [u8], at: usize, n: u32, width: usize)
    requires { at + width ≤ length out.old }
    ensures { out.new ≡ lay out.old at (digits_of width n) }
{
    let mut rest = n;
    for i in (0..width).rev() {
        out[at + i] = digit(rest % BASE);
        rest /= BASE;
    }
}

// Answers the byte of a digit.
fn digit(d: u32) -> u8
    requires { d < BASE }
    ensures { result ≡ DIGIT_0 + d }
{
    DIGIT_0 + d as u8
}
