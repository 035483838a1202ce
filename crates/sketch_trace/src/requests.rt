// A line as a request: the call that it names, with its numbers.
use lines::Asked;

const MOST_WORDS: u64 = 65536;

// The calls; a line that is none; and one that asks nothing.
#[derive(Clone, Copy, Debug, PartialEq, Eq)]
pub enum Request {
    Lend(usize),
    Index { hash: u64, depth: u64, mask: u64 },
    Record,
    Digest,
    Increase(u64),
    Estimate(u64),
    Ensure(u64),
    Word(usize),
    PokeWord { at: usize, word: u64 },
    PokeRecord { used: usize, sample: u64, size: u64 },
    Bad,
    Silent,
}

// What the line asks for. Before the first lend only `lend` and `index` are calls.
pub fn requested(line: &[u8], is_lent: bool) -> Request {
    let names = b"lend index record digest increase estimate ensure word poke-word poke-record";
    let Some(asked) = lines::requested(line, names) else {
        return Request::Silent;
    };
    let call = call_of(asked);
    if is_lent || matches!(call, Request::Lend(_) | Request::Index { .. }) {
        call
    } else {
        Request::Bad
    }
}

// The call that a line is, by the place of its word in the table, if it has as many numbers as the call. No more words
// can be lent than there are.
fn call_of(asked: Asked) -> Request {
    let Some(name) = asked.word else {
        return Request::Bad;
    };
    let [a, b, c] = asked.numbers;
    match (name, asked.parts) {
        (0, 2) if a <= MOST_WORDS => Request::Lend(a as usize),
        (1, 4) => Request::Index {
            hash: a,
            depth: b,
            mask: c,
        },
        (2, 1) => Request::Record,
        (3, 1) => Request::Digest,
        (4, 2) => Request::Increase(a),
        (5, 2) => Request::Estimate(a),
        (6, 2) => Request::Ensure(a),
        (7, 2) => Request::Word(a as usize),
        (8, 3) => Request::PokeWord {
            at: a as usize,
            word: b,
        },
        (9, 4) => Request::PokeRecord {
            used: a as usize,
            sample: b,
            size: c,
        },
        _ => Request::Bad,
    }
}
