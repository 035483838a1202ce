// What a call answers, and the line that says it.
use deque_alone::Node;
use lines::{Answers, Lines};
use numbers::refusals::Refusal;

#[derive(Clone, Copy, Debug, PartialEq, Eq)]
pub enum Answer {
    Slot(usize),
    Popped { slot: usize, element: u64 },
    Element(u64),
    Node { slot: usize, element: u64 },
    Nothing,
    Done,
    Length(usize),
    Digest(u64),
    BadLine,
    NoLine,
}

// An answer, and the first free node after the call.
#[derive(Clone, Copy, Debug, PartialEq, Eq)]
pub struct Told {
    pub answer: Answer,
    pub free: usize,
}

// Puts the answer's line after the answers that wait. A line is told by the place of its word in the table and its
// numbers.
pub fn say(rt: &impl Print, answers: &mut Answers, told: Result<Told, Refusal>, input: &Lines) {
    let mut line = [0; 6];
    match told {
        Ok(told) => tell(&mut line, told.answer),
        Err(why) => lines::tell(&mut line, 3, 1, why.number(), 0, 0),
    }
    let words = b"slot popped element refused nothing ok length digest";
    answers.say(rt, words, &line, input);
}

fn tell(line: &mut [u64; 6], answer: Answer) {
    match answer {
        Answer::Slot(slot) => lines::tell(line, 0, 1, slot as u64, 0, 0),
        Answer::Popped { slot, element } => lines::tell(line, 1, 2, slot as u64, element, 0),
        Answer::Element(element) => lines::tell(line, 2, 1, element, 0, 0),
        Answer::Node { slot, element } => lines::tell(line, 2, 2, slot as u64, element, 0),
        Answer::Nothing => lines::tell(line, 4, 0, 0, 0, 0),
        Answer::Done => lines::tell(line, 5, 0, 0, 0, 0),
        Answer::Length(n) => lines::tell(line, 6, 1, n as u64, 0, 0),
        Answer::Digest(h) => lines::tell(line, 7, 1, h, 0, 0),
        Answer::BadLine => lines::tell(line, lines::BAD_LINE, 0, 0, 0, 0),
        Answer::NoLine => lines::tell(line, lines::NO_LINE, 0, 0, 0, 0),
    }
}

// A look, where there is a node.
pub fn looked(node: Option<Node>) -> Answer {
    match node {
        Some(Node { slot, element }) => Answer::Node { slot, element },
        None => Answer::Nothing,
    }
}
