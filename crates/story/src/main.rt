// A story of one timer over the wheel's public calls: armed, other calls, a refused one, an abandoned advance, one that
// comes too early, a clock stepped back, and the advance that hands it out. Every answer is expected, and each
// expectation is proved from the calls' promises. No `requires`.
#![tactic(auto)]

mod answers; // whether an answer is the one that is expected
mod chapters;
mod held; // the records, and the wheel's calls on them

use crate::chapters::{
    abandon_one, arm, begin, cancel_another, come_too_early, count_none, hand_out, step_back,
};

fn main() {
    let mut s = begin();
    arm(&mut s);
    cancel_another(&mut s);
    abandon_one(&mut s);
    come_too_early(&mut s);
    step_back(&mut s);
    hand_out(&mut s);
    count_none(&s);
}
