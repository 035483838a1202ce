// The soundness test. It assumes nothing of what the records hold, looks at each node once, and ends on any links.
ghost use Rattle.deque_rules.specs.alone.Sound.{DequesOk, NodesOk, IsLent, StandsOk, Judged};
ghost use Rattle.deque_alone.specs.Slices.{state_of};

use crate::lending::Deques;
use crate::{NONE, PAST_END};

impl Deques<'_> {
    // Whether the parallel slices have equal lengths, 1 to 256 for the deques and 1 to 4,096 for the nodes.
    pub fn lent(self, cursors: &[usize]) -> bool
        ensures { IsLent (state_of self.entry cursors.now) result }
    {
        let links = self.links;
        lent_deques(links.heads, links.tails, self.lens, cursors)
            && lent_nodes(links.next, links.prev, links.home, self.element)
    }

    // Whether the records are sound: links, free chain, lengths and cursors.
    #[inline(always)]
    pub fn sound(self, cursors: &[usize], free: usize) -> bool
        ensures { Judged (state_of self.entry cursors.now) free result }
    {
        if !self.lent(cursors) {
            return false;
        }
        let mut total: usize = 0;
        for d in 0..self.links.heads.len() {
            let Some(k) = self.links.walk(d) else {
                return false;
            };
            if self.lens[d] != k {
                return false;
            }
            if !stands(cursors[d], self.links.home, d) {
                return false;
            }
            total += k;
        }
        let Some(k) = self.links.walk_free(free) else {
            return false;
        };
        total + k == self.links.next.len()
    }
}

// The deques' half of the lengths.
fn lent_deques(heads: &[usize], tails: &[usize], lens: &[usize], cursors: &[usize]) -> bool
    ensures { DequesOk heads.now tails.now lens.now cursors.now result }
{
    let m = heads.len();
    1 <= m && m <= 256 && tails.len() == m && lens.len() == m && cursors.len() == m
}

// The nodes' half of them.
fn lent_nodes(next: &[usize], prev: &[usize], home: &[usize], element: &[u64]) -> bool
    ensures { NodesOk next.now prev.now home.now element.now result }
{
    let n = next.len();
    1 <= n && n <= NONE && prev.len() == n && home.len() == n && element.len() == n
}

// Whether the cursor c of the deque d stands at none, past the end, or at a node that names d.
fn stands(c: usize, home: &[usize], d: usize) -> bool
    ensures { StandsOk c home.now d result }
{
    c == NONE || c == PAST_END || c < home.len() && home[c] == d
}
