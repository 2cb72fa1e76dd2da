// Tells whether two ranges share a byte, by arithmetic alone: no step asks which of two numbers is the larger.
#![tactic(auto)]

ghost use Rattle.std.specs.Prelude.{◌≡◌, cond, max, min, ◌-◌, ◌<◌, leb};
ghost use Rattle.ranges.specs.Ranges.{TOP, overlap_of};

// 2^63, above every start and end of a range: a difference that is raised by it does not fall below 0, and its top bit tells the sign.
const TOP: u64 = 9223372036854775808;

// The answer where some byte lies in both ranges. It is a number, which the arithmetic gives; a `bool` would be a comparison more.
pub const YES: u64 = 1;

// Answers YES where some byte lies in both ranges, else 0: none does where the larger start is the smaller end or more.
pub fn overlap(a: u32, a_length: u32, b: u32, b_length: u32) -> u64
    ensures { result ≡ overlap_of a a_length b b_length }
{
    let start = larger(a as u64, b as u64);
    let end = smaller(a as u64 + a_length as u64, b as u64 + b_length as u64);
    YES - at_least(start, end)
}

// By arithmetic and not by `max`: the overlap is told by arithmetic alone (document 02, Two), and a comparison may become a branch.
fn larger(a: u64, b: u64) -> u64
    requires { (a < TOP) × (b < TOP) }
    ensures { result ≡ max a b }
{
    b + above(a, b)
}

// By arithmetic and not by `min`, for the same reason as `larger`.
fn smaller(a: u64, b: u64) -> u64
    requires { (a < TOP) × (b < TOP) }
    ensures { result ≡ min a b }
{
    a - above(a, b)
}

// Answers how far a lies above b; 0 where it does not.
fn above(a: u64, b: u64) -> u64
    requires { (a < TOP) × (b < TOP) }
    ensures { result ≡ a - b }
{
    at_least(a, b) * ((a + TOP - b) % TOP)
}

// Answers 1 where a is b or more, else 0: the top bit of the raised difference.
fn at_least(a: u64, b: u64) -> u64
    requires { (a < TOP) × (b < TOP) }
    ensures { result ≡ cond (leb b a) 1 0 }
{
    (a + TOP - b) / TOP
}
