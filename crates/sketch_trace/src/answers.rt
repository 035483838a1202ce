// What a call answers, and the line that says it.
use lines::{Answers, Lines};
use sketch::{Refusal, Sketch};

#[derive(Clone, Copy, Debug, PartialEq, Eq)]
pub enum Answer {
    Done,
    Index(u64),
    Record(Sketch),
    Digest(u64),
    Estimate(u64),
    Word(u64),
    BadLine,
    NoLine,
}

// Puts the answer's line after the answers that wait. A line is told by the place of its word in the table and its
// numbers.
pub fn say(rt: &impl Print, answers: &mut Answers, answer: Result<Answer, Refusal>, input: &Lines) {
    let mut told = [0; 6];
    match answer {
        Ok(Answer::Done) => lines::tell(&mut told, 0, 0, 0, 0, 0),
        Err(why) => lines::tell(&mut told, 1, 1, why.number(), 0, 0),
        Ok(Answer::Index(n)) => lines::tell(&mut told, 2, 1, n, 0, 0),
        Ok(Answer::Record(s)) => lines::tell(&mut told, 3, 3, s.used as u64, s.sample, s.size),
        Ok(Answer::Digest(n)) => lines::tell(&mut told, 4, 1, n, 0, 0),
        Ok(Answer::Estimate(n)) => lines::tell(&mut told, 5, 1, n, 0, 0),
        Ok(Answer::Word(n)) => lines::tell(&mut told, 6, 1, n, 0, 0),
        Ok(Answer::BadLine) => lines::tell(&mut told, lines::BAD_LINE, 0, 0, 0, 0),
        Ok(Answer::NoLine) => lines::tell(&mut told, lines::NO_LINE, 0, 0, 0, 0),
    }
    let words = b"ok refused index record digest estimate word";
    answers.say(rt, words, &told, input);
}
