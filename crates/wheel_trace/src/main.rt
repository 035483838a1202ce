// Speaks the trace format for the wheel: calls on standard input, an answer for each on standard output.
#![tactic(auto)]

mod answers; // what a call answers, and its line
mod calls; // the calls on the wheel that is lent
mod fields; // a part of a line as a field of a call
mod pokes; // a field is written
mod records; // the records that are lent, and the wheel on them
mod requests; // a line as what it asks for
mod rows; // what takes the records row by row: lines, or a digest
mod sessions; // one wheel, from its lend to the next
mod shows; // bucket, clock, dump, digest

use crate::sessions::session;
use lines::{Answers, Lines};

// Answers line by line to the end of the input, lend by lend.
fn main(rt: HostRuntime) {
    let mut input = Lines::new();
    let mut answers = Answers::new();
    let mut lend = None;
    for _ in 0..u64::MAX {
        lend = session(&rt, &mut input, &mut answers, lend);
        if lend.is_none() {
            break;
        }
    }
    answers.flush(&rt);
}
