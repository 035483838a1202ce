// What a call answers, and the line that says it.
use lines::Answers;
use wheel::{Event, Handle, Refusal, Rescheduled};

#[derive(Clone, Copy)]
pub enum Answer {
    Done,
    Armed(Handle),
    Rescheduled(Rescheduled),
    Event(Event),
    Count(usize),
    Due(Option<u64>),
    Place(u64),
    Digest(u64),
    // the lines stand among the answers already
    Shown,
    Refused(Refusal),
    BadLine,
}

impl Answer {
    // Puts the answer's line after those that wait.
    pub fn say(self, rt: &impl Print, answers: &mut Answers) {
        match self {
            Answer::Done => say(rt, answers, b"ok", &[]),
            Answer::Armed(handle) => {
                say(rt, answers, b"armed", &[handle.slot as u64, handle.serial])
            }
            Answer::Rescheduled(Rescheduled::Moved) => say(rt, answers, b"rescheduled", &[]),
            Answer::Rescheduled(Rescheduled::Removed) => say(rt, answers, b"removed", &[]),
            Answer::Event(event) => say_event(rt, answers, event),
            Answer::Count(n) => say(rt, answers, b"armed", &[n as u64]),
            Answer::Due(Some(time)) => say(rt, answers, b"due", &[time]),
            Answer::Due(None) => say_none(rt, answers, b"due"),
            Answer::Place(place) => say(rt, answers, b"place", &[place]),
            Answer::Digest(digest) => say(rt, answers, b"digest", &[digest]),
            Answer::Shown => {}
            Answer::Refused(why) => say(rt, answers, b"refused", &[why.number()]),
            Answer::BadLine => answers.append(rt, b"bad line\n"),
        }
    }
}

fn say_event(rt: &impl Print, answers: &mut Answers, event: Event) {
    match event {
        Event::Expired {
            entry,
            serial,
            deadline,
        } => say(rt, answers, b"expired", &[entry as u64, serial, deadline]),
        Event::Rescheduled {
            entry,
            serial,
            place,
        } => say(rt, answers, b"rescheduled", &[entry as u64, serial, place]),
        Event::End => say(rt, answers, b"end", &[]),
    }
}

// A line of a word and none, put after those that wait part by part, as a line of numbers is.
fn say_none(rt: &impl Print, answers: &mut Answers, word: &[u8]) {
    answers.append(rt, word);
    answers.append(rt, b" -");
    answers.append(rt, b"\n");
}

// A line of a word and numbers.
fn say(rt: &impl Print, answers: &mut Answers, word: &[u8], numbers: &[u64]) {
    answers.append(rt, word);
    for n in numbers {
        answers.append_field(rt, *n);
    }
    answers.append(rt, b"\n");
}
