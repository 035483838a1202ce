// Whether an answer is the one that is expected.
ghost use Rattle.face_rules.specs.Face.{scheduled_says, pulled_says};
ghost use Rattle.numbers.specs.Refusals.{number_of};
ghost use Rattle.rules.specs.Wheel.{ok, handle, end, expired, rescheduled, number};
ghost use Rattle.rules.specs.Wheel as rules;
ghost use Rattle.story.specs.Tests.{Whether};
ghost use Rattle.wheel_rules.specs.Promise.{noted_says, counted_says};

use face::{Event, Handle, Refusal};

pub fn is_refused(answer: Result<(), Refusal>, why: Refusal) -> bool
    ensures { Whether (noted_says answer) (rules.refused (number_of why)) result }
{
    answer == Err(why)
}

pub fn is_noted(answer: Result<(), Refusal>) -> bool
    ensures { Whether (noted_says answer) ok result }
{
    answer.is_ok()
}

pub fn is_handle(answer: Result<Handle, Refusal>, slot: usize, serial: u64) -> bool
    ensures { Whether (scheduled_says answer) (handle slot serial) result }
{
    answer == Ok(Handle { slot, serial })
}

pub fn is_end(answer: Result<Event, Refusal>) -> bool
    ensures { Whether (pulled_says answer) end result }
{
    answer == Ok(Event::End)
}

pub fn is_moved(answer: Result<Event, Refusal>, entry: usize, serial: u64, place: u64) -> bool
    ensures { Whether (pulled_says answer) (rescheduled entry serial place) result }
{
    answer
        == Ok(Event::Rescheduled {
            entry,
            serial,
            place,
        })
}

pub fn is_expired(answer: Result<Event, Refusal>, entry: usize, serial: u64, deadline: u64) -> bool
    ensures { Whether (pulled_says answer) (expired entry serial deadline) result }
{
    answer
        == Ok(Event::Expired {
            entry,
            serial,
            deadline,
        })
}

pub fn is_count(answer: Result<usize, Refusal>, n: usize) -> bool
    ensures { Whether (counted_says answer) (number n) result }
{
    answer == Ok(n)
}
