// A row of records: a line of a dump, or numbers of a digest.
ghost use Rattle.std.specs.Prelude.{◌≡◌, ◌≤◌, length};
ghost use Rattle.lines.specs.Digests.{mixed_row, counts_as};

use crate::answers::Answers;
use crate::digests::digest_step;

// A link to no node.
pub const NONE: u64 = numbers::slots::NONE as u64;

// A cursor past the end.
pub const PAST_END: u64 = numbers::slots::PAST_END as u64;

// What these two count as in a digest.
const NONE_COUNTS: u64 = u64::MAX;

const END_COUNTS: u64 = u64::MAX - 1;

// A value of a row: a number, or a link, which may be none or past the end.
#[derive(Clone, Copy)]
pub enum Value {
    Number(u64),
    Link(u64),
}

// The digest h with the row's values after it.
pub fn digest_row(h: u64, values: &[Value]) -> u64
    ensures { result ≡ mixed_row h values.now }
{
    values.iter().fold(h, |d, v| digest_step(d, counted(*v)))
}

// What a value counts as in a digest.
fn counted(value: Value) -> u64
    ensures { result ≡ counts_as value }
{
    match value {
        Value::Link(NONE) => NONE_COUNTS,
        Value::Link(PAST_END) => END_COUNTS,
        Value::Number(n) | Value::Link(n) => n,
    }
}

impl Answers {
    // Puts a line with the word and the row's values after what waits: a number, `-` for none and `end` for past the
    // end.
    pub fn say_row(&mut self, rt: &impl Print, word: &[u8], values: &[Value])
        ensures { self.new.waiting ≤ length self.new.out }
    {
        self.append(rt, word);
        for value in values {
            self.say_value(rt, *value);
        }
        self.append(rt, b"\n");
    }

    fn say_value(&mut self, rt: &impl Print, value: Value) {
        match value {
            Value::Link(NONE) => self.append(rt, b" -"),
            Value::Link(PAST_END) => self.append(rt, b" end"),
            Value::Number(n) | Value::Link(n) => self.append_field(rt, n),
        }
    }
}
