// Seeded workloads for the sketch, the deque and the wheel, to be timed: one line of standard input asks for one, and
// its answer is a digest of what it left.
#![tactic(auto)]

mod deques;
mod generator;
mod requests;
mod sketches;
mod wheels;

use crate::requests::answer;
use lines::{Answers, Lines};

// Answers line by line to the end of the input.
fn main(rt: HostRuntime) {
    let mut input = Lines::new();
    let mut answers = Answers::new();
    for _ in 0..u64::MAX {
        input.advance(&rt);
        let Some(line) = input.line() else {
            break;
        };
        answer(&rt, &mut answers, line);
        answers.settle(&rt, &input);
    }
    answers.flush(&rt);
}
