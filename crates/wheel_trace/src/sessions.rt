// One wheel: its records, from the lend that makes them to the next.
use crate::answers::Answer;
use crate::records::{Lend, Records};
use crate::requests::{Request, request_of};
use lines::{Answers, Kind, Lines, kind_of};
use wheel_timers::place::wheel_place;

// Answers the lend, if there was one, and line by line up to the next one, which it hands back, or to the end of the
// input.
pub fn session(
    rt: &(impl Input + Print),
    input: &mut Lines,
    answers: &mut Answers,
    lend: Option<Lend>,
) -> Option<Lend> {
    let mut records = Records::new();
    let mut wheel = records.lend(lend.unwrap_or(Lend::NOTHING));
    if lend.is_some() {
        Answer::Done.say(rt, answers);
    }
    for _ in 0..u64::MAX {
        answers.settle(rt, input);
        input.advance(rt);
        let line = input.line()?;
        let request = match kind_of(line) {
            Kind::Silent => continue,
            Kind::Long => None,
            Kind::Call => request_of(line),
        };
        let answer = match request {
            Some(Request::Lend(next)) => return Some(next),
            Some(Request::Place { reading, deadline }) => {
                Answer::Place(wheel_place(reading, deadline))
            }
            Some(_) if lend.is_none() => Answer::BadLine,
            Some(Request::Create(first)) => wheel.create(first),
            Some(Request::Call(call)) => wheel.call(call).unwrap_or_else(Answer::Refused),
            Some(Request::Show(show)) => wheel.show(rt, answers, show),
            Some(Request::Poke(poke)) => wheel.poke(poke),
            None => Answer::BadLine,
        };
        answer.say(rt, answers);
    }
    None
}
