// A part of a line as a number.
ghost use Rattle.std.specs.Prelude.{◌≡◌, ◌≤◌, ◌<◌, ◌+◌, ◌*◌, ◌^◌};
ghost use Rattle.std.specs.Option.{SomeIff};
ghost use Rattle.lines.specs.Reading.{number_of, digit_of, read_on, said};
ghost use Rattle.lines.specs.Parts.{part_of};

use crate::parts::part;

const DASH: &[u8] = b"-";

// What a part says: a number up to 2^64 - 1, none, or something else. (A Result of an Option is no plainer: it nests
// what are three cases with names here.)
#[derive(Clone, Copy)]
pub enum Number {
    Is(u64),
    Dash,
    Other,
}

// What part k of the line says.
pub fn number_at(line: &[u8], k: usize) -> Number
    ensures { result ≡ number_of (part_of k line.now) }
{
    read_number(part(line, k))
}

// What the part says.
pub fn read_number(text: &[u8]) -> Number
    ensures { result ≡ number_of text.now }
{
    if text.is_empty() {
        return Number::Other;
    }
    if text == DASH {
        return Number::Dash;
    }
    digits(text).map_or(Number::Other, Number::Is)
}

// The number that the bytes stand for as decimal digits. (std's parse is no plainer: it takes text alone, and reads a
// sign too.)
fn digits(text: &[u8]) -> Option<u64>
    ensures { said result ≡ read_on 0 text.now }
{
    let mut n = 0;
    for b in text {
        n = with_digit(n, *b)?;
    }
    Some(n)
}

// The number with one digit more, if the byte is a digit and the number fits.
fn with_digit(n: u64, b: u8) -> Option<u64>
    ensures { SomeIff result ((digit_of b ≤ 9) × (n * 10 + digit_of b < 2 ^ 64)) (n * 10 + digit_of b) }
{
    let digit = char::from(b).to_digit(10)?;
    n.checked_mul(10)?.checked_add(u64::from(digit))
}
