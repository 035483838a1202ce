// Answers: bytes and numbers that wait in a buffer until they are written to standard output.
ghost use Rattle.std.specs.Prelude.{◌≡◌, ◌+◌, ◌≤◌, length};
ghost use Rattle.std.proofs.Math.Seq.{paste};
ghost use Rattle.lines.specs.Answers.{Appended, AppendedNumber, AppendedField, place_of, settled};

use crate::collecting::Lines;
use crate::parts::first;

// The bytes that wait are the first of the buffer. (A fixed array: a rule of the project, no heap.)
#[derive(Drop)]
pub struct Answers {
    pub out: [u8; 65536],
    pub waiting: usize,
}

impl Answers {
    // None waits.
    pub fn new() -> Answers
        ensures { result.waiting ≡ 0 }
    {
        Answers {
            out: [0; 65536],
            waiting: 0,
        }
    }

    // Writes what waits to standard output: then none waits. Where it cannot be written it is lost.
    pub fn flush(&mut self, rt: &impl Print)
        ensures none_waits { self.new.waiting ≡ 0 }
        ensures same { self.new.out ≡ self.old.out }
    {
        self.waiting = write_out(rt, &self.out, self.waiting);
    }

    // Writes out what waits where all that was read is taken, so that nothing waits while more is read.
    pub fn settle(&mut self, rt: &impl Print, input: &Lines)
        ensures waits { self.new.waiting ≡ settled self.old.waiting input.now }
        ensures same { self.new.out ≡ self.old.out }
    {
        if input.is_all_taken() {
            self.flush(rt);
        }
    }

    // Puts text after what waits. Where there is no room for it that is written out first, and where it is longer than
    // the buffer it is written too.
    pub fn append(&mut self, rt: &impl Print, text: &[u8])
        ensures { Appended self.old.out self.old.waiting text.now self.new.out self.new.waiting }
    {
        self.waiting = append_to(rt, &mut self.out, self.waiting, text);
    }

    // Puts n in decimal after what waits, as `append` does.
    fn append_decimal(&mut self, rt: &impl Print, n: u64)
        ensures { AppendedNumber self.old.out self.old.waiting n self.new.out self.new.waiting }
    {
        let mut text = [0u8; 20];
        let k = io::decimal(n, &mut text);
        self.append(rt, &text[..k]);
    }

    // Puts a space and n in decimal after what waits, as `append` does.
    pub fn append_field(&mut self, rt: &impl Print, n: u64)
        ensures { AppendedField self.old.out self.old.waiting n self.new.out self.new.waiting }
    {
        self.append(rt, b" ");
        self.append_decimal(rt, n);
    }
}

// Writes the first n bytes of out to standard output, all of it where it has fewer, and answers how many wait then:
// none.
fn write_out(rt: &impl Print, out: &[u8], n: usize) -> usize
    ensures { result ≡ 0 }
{
    let _ = rt.write_all(first(out, n));
    0
}

// Puts text after the `at` bytes that wait in out, and answers how many wait then.
fn append_to(rt: &impl Print, out: &mut [u8], at: usize, text: &[u8]) -> usize
    ensures { Appended out.old at text.now out.new result }
{
    let n = text.len();
    let start = room(rt, out, at, n);
    if out.len() < n {
        let _ = rt.write_all(text);
        return 0;
    }
    copy(out, start, text);
    start + n
}

// Where n more bytes go: after the `at` that wait, or at the start once these are written out.
fn room(rt: &impl Print, out: &[u8], at: usize, n: usize) -> usize
    ensures { result ≡ place_of at n (length out.now) }
{
    if out.len() < at {
        return write_out(rt, out, at);
    }
    if out.len() - at < n {
        return write_out(rt, out, at);
    }
    at
}

// Puts text into out, from start on.
fn copy(out: &mut [u8], start: usize, text: &[u8])
    requires { start + length text.now ≤ length out.old }
    ensures { out.new ≡ paste out.old start text.now (length text.now) }
{
    out[start..start + text.len()].copy_from_slice(text);
}
