// Speaks the trace format for the sketch: calls on standard input, an answer for each on standard output.
#![tactic(auto)]

mod answers;
mod calls;
mod requests;

use crate::answers::say;
use crate::calls::perform;
use crate::requests::{Request, requested};
use lines::{Answers, Lines};

// Answers line by line to the end of the input. The words that were lent last are lent to each call.
fn main(rt: HostRuntime) {
    let mut table = [0u64; 65536];
    let mut record = sketch::unused();
    let mut lent = None;
    let mut input = Lines::new();
    let mut answers = Answers::new();
    for _ in 0..u64::MAX {
        input.advance(&rt);
        let Some(line) = input.line() else {
            break;
        };
        let request = requested(line, lent.is_some());
        if request == Request::Silent {
            answers.settle(&rt, &input);
            continue;
        }
        if let Request::Lend(words) = request {
            lent = Some(words);
        }
        let words = lines::within(lent.unwrap_or(0), 65536);
        let answer = perform(&mut table[..words], &mut record, request);
        say(&rt, &mut answers, answer, &input);
    }
    answers.flush(&rt);
}
