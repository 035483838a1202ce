// The calls of the trace, on the lent records.
use crate::answers::{Answer, Told, looked};
use crate::parse::{Call, Column};
use crate::pokes::put;
use crate::shows::{digest, dump};
use deque_alone::{Deques, DequesMut};
use lines::Answers;
use numbers::refusals::Refusal;

// A call on the lent records. A list and a dump go to the answers.
pub fn perform(
    rt: &impl Print,
    deques: &mut DequesMut<'_>,
    cursors: &mut [usize],
    answers: &mut Answers,
    free: usize,
    call: Call,
) -> Result<Told, Refusal> {
    match call {
        Call::Make { .. } => {
            let free = deques.make(cursors)?;
            Ok(Told {
                answer: Answer::Done,
                free,
            })
        }
        Call::Push { d, element } => {
            let placed = deques.push_back(cursors, free, d, element)?;
            Ok(Told {
                answer: Answer::Slot(placed.slot),
                free: placed.free,
            })
        }
        Call::Pop { d } => match deques.pop_front(cursors, free, d)? {
            Some(taken) => Ok(Told {
                answer: Answer::Popped {
                    slot: taken.slot,
                    element: taken.element,
                },
                free: taken.free,
            }),
            None => Ok(Told {
                answer: Answer::Nothing,
                free,
            }),
        },
        Call::Unlink { d, s } => {
            let freed = deques.unlink_and_drop(cursors, free, d, s)?;
            Ok(Told {
                answer: Answer::Element(freed.element),
                free: freed.free,
            })
        }
        Call::PokeFree { free } => Ok(Told {
            answer: Answer::Done,
            free,
        }),
        _ => Ok(Told {
            answer: change(rt, deques, cursors, answers, free, call)?,
            free,
        }),
    }
}

// The calls that write, and leave the first free node.
fn change(
    rt: &impl Print,
    deques: &mut DequesMut<'_>,
    cursors: &mut [usize],
    answers: &mut Answers,
    free: usize,
    call: Call,
) -> Result<Answer, Refusal> {
    match call {
        Call::Move { d, s } => {
            deques.move_to_back(cursors, free, d, s)?;
            Ok(Answer::Done)
        }
        Call::Poke { column, i, x } => Ok(poke(deques, cursors, column, i, x)),
        Call::PokeElement { s, element } => Ok(put(deques.element, s, element)),
        _ => look(rt, deques.as_read(), cursors, answers, free, call),
    }
}

// A link, a length or a cursor is written.
fn poke(
    deques: &mut DequesMut<'_>,
    cursors: &mut [usize],
    column: Column,
    i: usize,
    x: usize,
) -> Answer {
    match column {
        Column::Next => put(deques.links.next, i, x),
        Column::Prev => put(deques.links.prev, i, x),
        Column::Home => put(deques.links.home, i, x),
        Column::Head => put(deques.links.heads, i, x),
        Column::Tail => put(deques.links.tails, i, x),
        Column::Length => put(deques.lens, i, x),
        Column::Cursor => put(cursors, i, x),
    }
}

// The calls that write no more than a cursor.
fn look(
    rt: &impl Print,
    deques: Deques<'_>,
    cursors: &mut [usize],
    answers: &mut Answers,
    free: usize,
    call: Call,
) -> Result<Answer, Refusal> {
    match call {
        Call::Next { d } => Ok(looked(deques.next_by_cursor(cursors, free, d)?)),
        Call::Reset { d } => {
            deques.reset_cursor(cursors, free, d)?;
            Ok(Answer::Done)
        }
        Call::Front { d } => Ok(looked(deques.look_front(cursors, free, d)?)),
        Call::Back { d } => Ok(looked(deques.look_back(cursors, free, d)?)),
        Call::Length { d } => Ok(Answer::Length(deques.length_of(cursors, free, d)?)),
        Call::List { d } => Ok(list(rt, deques, answers, d)),
        Call::Dump => {
            dump(rt, deques, cursors, answers, free);
            Ok(Answer::NoLine)
        }
        Call::Digest => Ok(Answer::Digest(digest(deques, cursors, free))),
        Call::TooMany => Err(Refusal::LengthsOutOfRange),
        Call::Silent => Ok(Answer::NoLine),
        _ => Ok(Answer::BadLine),
    }
}

// `list D`: the nodes from the deque's head on.
fn list(rt: &impl Print, deques: Deques<'_>, answers: &mut Answers, d: usize) -> Answer {
    match deques.links.heads.get(d) {
        Some(head) => {
            answers.say_chain(rt, b"list", *head, deques.links.next);
            Answer::NoLine
        }
        None => Answer::BadLine,
    }
}
