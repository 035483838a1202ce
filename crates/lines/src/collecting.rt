// From blocks of standard input to lines.
ghost use Rattle.std.specs.Prelude.{◌≡◌, None};
ghost use Rattle.io.specs.Counts.{IsPrefixLen};
ghost use Rattle.lines.specs.Collecting.{Collects, Keeps, NextLine, Unread, Finds, all_taken, kind_of};

use crate::parts::first;
use std::io::Read;

const LINE_END: u8 = b'\n';

const COMMENT: u8 = b'#';

const LONGEST: usize = 256;

// What `collect` found: where the next line begins, how many bytes of this one the buffer holds,
// and whether its end was reached.
#[derive(Clone, Copy)]
pub struct Collected {
    pub next: usize,
    pub kept: usize,
    pub ended: bool,
}

// Standard input as lines: a block of it, of which the bytes from `from` to `upto` are yet to be taken, and the line
// found last, as much of it as there is room for: so many bytes, and none where there was no line. (Fixed arrays: a
// rule of the project, no heap.)
#[derive(Clone, Copy)]
pub struct Lines {
    pub block: [u8; 65536],
    pub from: usize,
    pub upto: usize,
    pub line: [u8; 257],
    pub held: Option<usize>,
}

// What a line is, before it is taken apart: one that answers nothing, one that is too long, or a
// call.
#[derive(Clone, Copy)]
pub enum Kind {
    Silent,
    Long,
    Call,
}

impl Lines {
    // Before the first line.
    pub fn new() -> Lines
        ensures { Unread result }
    {
        Lines {
            block: [0; 65536],
            from: 0,
            upto: 0,
            line: [0; 257],
            held: None,
        }
    }

    // Goes to the next line, and reads as much for that as it needs. A last line that no line end follows counts,
    // unless it is empty.
    pub fn advance(&mut self, rt: &impl Input)
        ensures { NextLine self.old self.new }
    {
        let c = collect(first(&self.block, self.upto), self.from, &mut self.line, 0);
        if c.ended {
            self.from = c.next;
            self.held = Some(c.kept);
        } else {
            self.read_on(rt, c.kept);
        }
    }

    // Reads on until the line ends, of which `kept` bytes are held, or the input does. A proved loop has to end: no
    // input is as long as this one may go on.
    fn read_on(&mut self, rt: &impl Input, kept: usize) {
        let mut c = Collected {
            next: 0,
            kept,
            ended: false,
        };
        for _ in 0..u64::MAX {
            self.upto = read_block(rt, &mut self.block);
            c = collect(first(&self.block, self.upto), 0, &mut self.line, c.kept);
            if c.ended || self.upto == 0 {
                break;
            }
        }
        self.from = c.next;
        self.held = (self.upto > 0 || c.kept > 0).then_some(c.kept);
    }

    // The line that was found last, as much of it as there is room for: 257 bytes; none where there was none.
    pub fn line(&self) -> Option<&[u8]>
        ensures { Finds self.now.held self.now.line result }
    {
        match self.held {
            Some(n) => Some(first(&self.line, n)),
            None => None,
        }
    }

    // Whether all that was read is taken.
    pub fn is_all_taken(&self) -> bool
        ensures { result ≡ all_taken self.now }
    {
        self.from >= self.upto
    }
}

// Reads some of standard input into block and answers how many bytes it has now: 0 at the end of
// the input, or where it cannot be read.
fn read_block(rt: &impl Input, block: &mut [u8]) -> usize
    ensures { IsPrefixLen result block.new }
{
    rt.reader().read(block).unwrap_or(0)
}

// Takes block's bytes from `from` on into line, which holds `kept` bytes of the same line already,
// up to the line's end or the end of the block. Bytes that line has no room for are passed over.
fn collect(block: &[u8], from: usize, line: &mut [u8], kept: usize) -> Collected
    ensures { Collects block.now from line.old kept line.new result }
{
    let mut n = kept;
    for i in from..block.len() {
        let b = block[i];
        if b == LINE_END {
            return Collected {
                next: i + 1,
                kept: n,
                ended: true,
            };
        }
        n = keep(line, n, b);
    }
    Collected {
        next: from.max(block.len()),
        kept: n,
        ended: false,
    }
}

// Puts b after the n bytes that line holds, if there is room, and answers how many it holds now.
fn keep(line: &mut [u8], n: usize, b: u8) -> usize
    ensures { Keeps line.old n b line.new result }
{
    if n < line.len() {
        line[n] = b;
        n + 1
    } else {
        n
    }
}

// What the line is: too long, silent (empty, or a comment), or a call.
pub fn kind_of(line: &[u8]) -> Kind
    ensures { result ≡ kind_of line.now }
{
    if line.len() > LONGEST {
        return Kind::Long;
    }
    if line.is_empty() || line[0] == COMMENT {
        return Kind::Silent;
    }
    Kind::Call
}
