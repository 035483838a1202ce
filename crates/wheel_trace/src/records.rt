// The records that are lent, and the wheel on them.
use crate::answers::Answer;
use crate::pokes::put;
use deque::linked::LinkedMut;
use wheel::{Clock, EntriesMut, NodesMut};

// How many node records and entries are lent.
#[derive(Clone, Copy)]
pub struct Lend {
    pub nodes: usize,
    pub entries: usize,
}

impl Lend {
    pub const NOTHING: Lend = Lend {
        nodes: 0,
        entries: 0,
    };
}

// As many records as can be lent: 4,100 of each kind beside the buckets.
#[derive(Drop)]
pub struct Records {
    heads: [usize; 165],
    tails: [usize; 165],
    next: [usize; 4100],
    prev: [usize; 4100],
    bucket: [usize; 4100],
    entry: [usize; 4100],
    generation: [u32; 4100],
    serial: [u64; 4100],
    dated: [bool; 4100],
    deadline: [u64; 4100],
    stamp: [u32; 4100],
}

// A wheel: the records that are lent to its calls, and its clock.
#[derive(Drop)]
pub struct Wheel<'a> {
    pub nodes: NodesMut<'a>,
    pub entries: EntriesMut<'a>,
    pub clock: Clock,
}

impl Records {
    // All 0, so that they are zeroed where the caller keeps them, and nothing is copied there.
    pub fn new() -> Records {
        Records {
            heads: [0; 165],
            tails: [0; 165],
            next: [0; 4100],
            prev: [0; 4100],
            bucket: [0; 4100],
            entry: [0; 4100],
            generation: [0; 4100],
            serial: [0; 4100],
            dated: [false; 4100],
            deadline: [0; 4100],
            stamp: [0; 4100],
        }
    }

    // The wheel on the first of them, with no slot in any bucket.
    pub fn lend(&mut self, lend: Lend) -> Wheel<'_> {
        let Lend { nodes, entries } = lend;
        let Records {
            heads,
            tails,
            next,
            prev,
            bucket,
            entry,
            generation,
            serial,
            dated,
            deadline,
            stamp,
        } = self;
        let made = wheel::create(0);
        heads.copy_from_slice(&made.heads);
        tails.copy_from_slice(&made.tails);
        Wheel {
            nodes: NodesMut {
                linked: LinkedMut {
                    heads,
                    tails,
                    next: first(next, nodes),
                    prev: first(prev, nodes),
                    home: first(bucket, nodes),
                },
                entry: first(entry, nodes),
                generation: first(generation, nodes),
                serial: first(serial, nodes),
            },
            entries: EntriesMut {
                dated: first(dated, entries),
                deadline: first(deadline, entries),
                generation: first(stamp, entries),
            },
            clock: made.clock,
        }
    }
}

// The first n places of the column, all of them where it has fewer.
fn first<T>(column: &mut [T], n: usize) -> &mut [T] {
    let end = lines::within(n, column.len());
    &mut column[..end]
}

impl Wheel<'_> {
    // `create SERIAL`: empty buckets and a clock that begins with that serial.
    pub fn create(&mut self, first: u64) -> Answer {
        let made = wheel::create(first);
        for b in 0..165 {
            put(self.nodes.linked.heads, b, made.heads[b]);
            put(self.nodes.linked.tails, b, made.tails[b]);
        }
        self.clock = made.clock;
        Answer::Done
    }
}
