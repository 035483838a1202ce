// The records of one deque in arrays, tested once before the workloads rely on them.
ghost use Rattle.std.specs.Prelude.{◌≤◌, ◌≡◌, length, List, ℕ};
ghost use Rattle.bench.specs.Ready.{Ready, Laid, first_nodes};
ghost use Rattle.deque_alone.specs.Slices.{state_of};

use crate::deques::laying::{
    first_free, first_node, laid_element, laid_home, laid_next, laid_prev, node_before,
};
use deque::linked::Linked;
use deque_alone::{Deques, NONE};

// The records, and the first free node.
#[derive(Clone, Copy)]
pub struct Records {
    pub heads: [usize; 1],
    pub tails: [usize; 1],
    pub lens: [usize; 1],
    pub cursors: [usize; 1],
    pub next: [usize; 4096],
    pub prev: [usize; 4096],
    pub home: [usize; 4096],
    pub element: [u64; 4096],
    pub free: usize,
}

impl Records {
    // The records over the first n nodes, but for the cursors.
    pub fn as_read(&self, n: usize) -> Deques<'_>
        requires { n ≤ 4096 }
        ensures { state_of result self.now.cursors ≡ first_nodes n self.now }
    {
        Deques {
            links: Linked {
                heads: &self.heads,
                tails: &self.tails,
                next: &self.next[..n],
                prev: &self.prev[..n],
                home: &self.home[..n],
            },
            lens: &self.lens,
            element: &self.element[..n],
        }
    }
}

// The records of a deque that has the first ones of n nodes, so many, with the numbers after x, if they are sound.
pub fn laid(n: usize, count: usize, x: u64) -> Option<Records>
    requires { n ≤ 4096 }
    ensures { Laid n result }
{
    let records = Records {
        heads: [first_node(count)],
        tails: [node_before(count)],
        lens: [count],
        cursors: [NONE],
        next: laid_next(n, count),
        prev: laid_prev(count),
        home: laid_home(count),
        element: laid_element(count, x),
        free: first_free(n, count),
    };
    if records.as_read(n).sound(&records.cursors, records.free) {
        Some(records)
    } else {
        None
    }
}
