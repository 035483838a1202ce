// The records of a workload, and the wheel on them.
ghost use Rattle.std.specs.Prelude.{◌≡◌, ◌<◌, ◌≤◌, length};
ghost use Rattle.bench.specs.Kept.{shown, Works, Lies};

use deque::linked::LinkedMut;
use wheel_rules::calls::Clock;
use wheel_timers::layout::lay_out;
use wheel_timers::lent::{EntriesMut, NodesMut};

// The buckets of the wheel.
pub const BUCKETS: usize = 165;

// Arrays for 4,096 records of each kind. They are longer than that by 72, so that equal places of two of them do not
// share a set of the cache.
#[derive(Drop)]
pub struct Records {
    heads: [usize; 165],
    tails: [usize; 165],
    next: [usize; 4168],
    prev: [usize; 4168],
    bucket: [usize; 4168],
    entry: [usize; 4168],
    generation: [u32; 4168],
    serial: [u64; 4168],
    dated: [bool; 4168],
    deadline: [u64; 4168],
    stamp: [u32; 4168],
}

// A wheel: the records that are lent to its calls, and its clock.
#[derive(Drop)]
pub struct Wheel<'a> {
    pub nodes: NodesMut<'a>,
    pub entries: EntriesMut<'a>,
    pub clock: Clock,
}

impl Records {
    #[inline(always)]
    pub fn new() -> Records {
        Records {
            heads: [0; 165],
            tails: [0; 165],
            next: [0; 4168],
            prev: [0; 4168],
            bucket: [0; 4168],
            entry: [0; 4168],
            generation: [0; 4168],
            serial: [0; 4168],
            dated: [false; 4168],
            deadline: [0; 4168],
            stamp: [0; 4168],
        }
    }

    // A wheel over so many of the node records, with as many entries as there are slots beside the sentinels.
    #[inline(always)]
    pub fn lay(&mut self, nodes: usize) -> Wheel<'_>
        requires { (165 < nodes) × (nodes ≤ 4096) }
        ensures works { Works (shown result) }
        ensures lies { Lies nodes result }
    {
        let Records {
            heads,
            tails,
            next,
            prev,
            bucket,
            entry,
            generation,
            serial,
            dated,
            deadline,
            stamp,
        } = self;
        let mut nodes_lent = NodesMut {
            linked: LinkedMut {
                heads,
                tails,
                next: first(next, nodes),
                prev: first(prev, nodes),
                home: first(bucket, nodes),
            },
            entry: first(entry, nodes),
            generation: first(generation, nodes),
            serial: first(serial, nodes),
        };
        let mut entries_lent = EntriesMut {
            dated: first(dated, nodes - BUCKETS),
            deadline: first(deadline, nodes - BUCKETS),
            generation: first(stamp, nodes - BUCKETS),
        };
        let clock = lay_out(&mut nodes_lent, &mut entries_lent, wheel::create(0).clock);
        Wheel {
            nodes: nodes_lent,
            entries: entries_lent,
            clock,
        }
    }
}

// The first n places of the column.
#[inline(always)]
fn first<T>(column: &mut [T], n: usize) -> &mut [T]
    requires { n ≤ length column.old }
    ensures { length result.now ≡ n }
{
    &mut column[..n]
}
