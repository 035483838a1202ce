// Speaks the trace format for the deque: calls on standard input, an answer for each on standard output.
#![tactic(auto)]

mod answers;
mod parse;
mod pokes;
mod shows;
mod state;
mod work;

use crate::answers::say;
use crate::parse::found;
use crate::state::State;
use crate::work::perform;
use deque::linked::LinkedMut;
use deque_alone::DequesMut;
use lines::{Answers, Lines};

// Answers line by line to the end of the input. A refused call leaves the state.
fn main(rt: HostRuntime) {
    let mut heads = [0usize; 256];
    let mut tails = [0usize; 256];
    let mut lens = [0usize; 256];
    let mut cursors = [0usize; 256];
    let mut next = [0usize; 4096];
    let mut prev = [0usize; 4096];
    let mut home = [0usize; 4096];
    let mut element = [0u64; 4096];
    let mut input = Lines::new();
    let mut answers = Answers::new();
    let mut state = State {
        deques: 0,
        nodes: 0,
        free: deque_alone::NONE,
    };
    for _ in 0..u64::MAX {
        input.advance(&rt);
        let Some(line) = input.line() else {
            break;
        };
        let plan = state.planned(found(line));
        let d = plan.deques;
        let n = plan.nodes;
        let mut deques = DequesMut {
            links: LinkedMut {
                heads: &mut heads[..d],
                tails: &mut tails[..d],
                next: &mut next[..n],
                prev: &mut prev[..n],
                home: &mut home[..n],
            },
            lens: &mut lens[..d],
            element: &mut element[..n],
        };
        let told = perform(
            &rt,
            &mut deques,
            &mut cursors[..d],
            &mut answers,
            state.free,
            plan.call,
        );
        say(&rt, &mut answers, told, &input);
        if let Ok(told) = told {
            state = State {
                deques: d,
                nodes: n,
                free: told.free,
            };
        }
    }
    answers.flush(&rt);
}
