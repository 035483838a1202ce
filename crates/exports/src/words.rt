// Each answer of the wheel's calls over lent nodes, written to five lent numbers: the refusal's number, or 0; which
// answer it is; and its values. The result is the first of them. No `requires`.
ghost use Rattle.std.specs.Prelude.{◌≡◌};
ghost use Rattle.face_rules.specs.Face.{words_of, Writes};
ghost use Rattle.rules.specs.Wheel.{Answer, ok, number, due};
ghost use Rattle.wheel_rules.specs.Promise.{says, handle_told, rescheduled_told, told, due_told};

use numbers::refusals::Refusal;
use wheel_rules::calls::{Event, Handle, Rescheduled};

// What a call that is not refused answers, as five numbers, the first of them 0.
pub trait Worded {
    // what the value says
    ghost said: { Self → Answer };

    fn words(self) -> [u64; 5]
        ensures { result ≡ words_of (said self) };
}

// Done.
impl Worded for () {
    ghost said = { λ u. ok };

    fn words(self) -> [u64; 5] {
        [0, 0, 0, 0, 0]
    }
}

impl Worded for Handle {
    ghost said = { handle_told };

    fn words(self) -> [u64; 5] {
        [0, 1, self.slot as u64, self.serial, 0]
    }
}

impl Worded for Rescheduled {
    ghost said = { rescheduled_told };

    fn words(self) -> [u64; 5] {
        match self {
            Rescheduled::Moved => [0, 0, 0, 0, 0],
            Rescheduled::Removed => [0, 2, 0, 0, 0],
        }
    }
}

impl Worded for Event {
    ghost said = { told };

    fn words(self) -> [u64; 5] {
        match self {
            Event::End => [0, 3, 0, 0, 0],
            Event::Expired {
                entry,
                serial,
                deadline,
            } => [0, 4, entry as u64, serial, deadline],
            Event::Rescheduled {
                entry,
                serial,
                place,
            } => [0, 5, entry as u64, serial, place],
        }
    }
}

// A count.
impl Worded for usize {
    ghost said = { number };

    fn words(self) -> [u64; 5] {
        [0, 6, self as u64, 0, 0]
    }
}

// The next deadline, or none.
impl Worded for Option<u64> {
    ghost said = { λ o. due (due_told o) };

    fn words(self) -> [u64; 5] {
        match self {
            Some(deadline) => [0, 7, deadline, 0, 0],
            None => [0, 8, 0, 0, 0],
        }
    }
}

// Writes the answer, or the refusal's number and no value.
pub fn tell<A: Worded>(r: Result<A, Refusal>, answer: &mut [u64; 5]) -> u64
    ensures { Writes (words_of (says A.said r)) answer.new result }
{
    *answer = match r {
        Ok(value) => value.words(),
        Err(why) => [why.number(), 0, 0, 0, 0],
    };
    answer[0]
}
