// A line's parts: what stands between its spaces.
ghost use Rattle.std.specs.Prelude.{◌≡◌, ◌==◌, take, position};
ghost use Rattle.lines.specs.Parts.{count_of, part_of, before, after, alike, space};

pub const SPACE: u8 = b' ';

// How many parts the line has: one more than it has spaces.
pub fn count(line: &[u8]) -> usize
    ensures { result ≡ count_of line.now }
{
    line.iter().filter(|b| **b == SPACE).count() + 1
}

// The first n bytes of what a buffer holds, all of them where it holds fewer.
pub fn first(buffer: &[u8], n: usize) -> &[u8]
    ensures { result.now ≡ take n buffer.now }
{
    &buffer[..n.min(buffer.len())]
}

// Part k of the line, the first is 0; empty where there are fewer.
pub fn part(line: &[u8], k: usize) -> &[u8]
    ensures { result.now ≡ part_of k line.now }
{
    let mut rest = line;
    for _ in 0..k {
        if rest.is_empty() {
            return rest;
        }
        rest = cut(rest).1;
    }
    cut(rest).0
}

// Whether part k of the line is word.
pub fn is_part(line: &[u8], k: usize, word: &[u8]) -> bool
    ensures { result ≡ alike (part_of k line.now) word.now }
{
    part(line, k) == word
}

// What stands before the first space, and what after it: all and nothing where there is none.
fn cut(text: &[u8]) -> (&[u8], &[u8])
    ensures front { result.0.now ≡ before space text.now }
    ensures back { result.1.now ≡ after space text.now }
{
    match space_in(text) {
        Some(i) => (&text[..i], &text[i + 1..]),
        None => (text, &[]),
    }
}

// Where the first space stands.
fn space_in(text: &[u8]) -> Option<usize>
    ensures { result ≡ position (λ x. x == space) text.now }
{
    text.iter().position(|b| *b == SPACE)
}
