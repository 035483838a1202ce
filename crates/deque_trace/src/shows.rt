// The records as text and as a digest: `dump` and `digest`. Where a parallel slice is shorter, none and 0 stand
// for what it lacks.
use deque_alone::Deques;
use lines::{Answers, NONE, Value};

// A column's number in record i, none where there is no such record.
fn number(column: &[usize], i: usize) -> u64 {
    column.get(i).map_or(NONE, |n| *n as u64)
}

// `D HEAD TAIL LENGTH CURSOR`.
fn deque_row(deques: Deques<'_>, cursors: &[usize], d: usize) -> [Value; 5] {
    [
        Value::Number(d as u64),
        Value::Link(number(deques.links.heads, d)),
        Value::Link(number(deques.links.tails, d)),
        Value::Number(number(deques.lens, d)),
        Value::Link(number(cursors, d)),
    ]
}

// `S NEXT PREV HOME ELEMENT`.
fn node_row(deques: Deques<'_>, s: usize) -> [Value; 5] {
    [
        Value::Number(s as u64),
        Value::Link(number(deques.links.next, s)),
        Value::Link(number(deques.links.prev, s)),
        Value::Link(number(deques.links.home, s)),
        Value::Number(deques.element.get(s).map_or(0, |e| *e)),
    ]
}

// `FREE`.
fn free_row(free: usize) -> [Value; 1] {
    [Value::Link(free as u64)]
}

// `dump`: the deques, the nodes and the first free node, a line each.
pub fn dump(
    rt: &impl Print,
    deques: Deques<'_>,
    cursors: &[usize],
    answers: &mut Answers,
    free: usize,
) {
    for d in 0..deques.links.heads.len() {
        answers.say_row(rt, b"deque", &deque_row(deques, cursors, d));
    }
    for s in 0..deques.links.next.len() {
        answers.say_row(rt, b"node", &node_row(deques, s));
    }
    answers.say_row(rt, b"free", &free_row(free));
}

// `digest`: the digest of the dump's numbers.
pub fn digest(deques: Deques<'_>, cursors: &[usize], free: usize) -> u64 {
    let mut h = lines::digest_start();
    for d in 0..deques.links.heads.len() {
        h = lines::digest_row(h, &deque_row(deques, cursors, d));
    }
    for s in 0..deques.links.next.len() {
        h = lines::digest_row(h, &node_row(deques, s));
    }
    lines::digest_row(h, &free_row(free))
}
