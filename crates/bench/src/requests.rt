// The requests: `WORKLOAD SIZE CALLS SEED`, and their answers.
use crate::generator::first_number;
use crate::{deques, sketches, wheels};
use lines::{Answers, Kind, Number, count, kind_of, number_at, part};

// A workload of the sketch, of the deque or of the wheel.
#[derive(Clone, Copy)]
enum Workload {
    Sketch(sketches::Workload),
    Deque(deques::Workload),
    Wheel(wheels::Workload),
}

// Puts the answer to the line after those that wait: the digest that the workload leaves, or that there is no such
// workload, or none of that size. An empty line and a comment answer nothing.
pub fn answer(rt: &impl Print, answers: &mut Answers, line: &[u8]) {
    let digest = match kind_of(line) {
        Kind::Silent => return,
        Kind::Long => None,
        Kind::Call => digest_asked(line),
    };
    match digest {
        Some(digest) => {
            answers.append(rt, b"digest");
            answers.append_field(rt, digest);
            answers.append(rt, b"\n");
        }
        None => answers.append(rt, b"bad line\n"),
    }
}

// The digest that the line asks for.
fn digest_asked(line: &[u8]) -> Option<u64> {
    if count(line) != 4 {
        return None;
    }
    let workload = workload_of(part(line, 0))?;
    let size = number(line, 1)?;
    let calls = number(line, 2)?;
    let x = first_number(number(line, 3)?);
    match workload {
        Workload::Sketch(which) => sketches::digest_of(which, size, calls, x),
        Workload::Deque(which) => deques::digest_of(which, size, calls, x),
        Workload::Wheel(which) => wheels::digest_of(which, size, calls, x),
    }
}

fn workload_of(word: &[u8]) -> Option<Workload> {
    match word {
        b"increase" => Some(Workload::Sketch(sketches::Workload::Increase)),
        b"estimate" => Some(Workload::Sketch(sketches::Workload::Estimate)),
        b"index" => Some(Workload::Sketch(sketches::Workload::Index)),
        b"queue" => Some(Workload::Deque(deques::Workload::Queue)),
        b"move" => Some(Workload::Deque(deques::Workload::Move)),
        b"unlink" => Some(Workload::Deque(deques::Workload::Unlink)),
        b"walk" => Some(Workload::Deque(deques::Workload::Walk)),
        b"length" => Some(Workload::Deque(deques::Workload::Length)),
        b"cancel" => Some(Workload::Wheel(wheels::Workload::Cancel)),
        b"ticks" => Some(Workload::Wheel(wheels::Workload::Ticks)),
        b"jumps" => Some(Workload::Wheel(wheels::Workload::Jumps)),
        b"count" => Some(Workload::Wheel(wheels::Workload::Count)),
        _ => None,
    }
}

fn number(line: &[u8], k: usize) -> Option<u64> {
    match number_at(line, k) {
        Number::Is(n) => Some(n),
        _ => None,
    }
}
