// For proved code only, unchecked: looks at the ends and the cursor, on records known to be sound. A caller shows that
// the records are sound (or tests it once).
ghost use Rattle.std.specs.Prelude.{◌<◌, ◌≡◌, length};
ghost use Rattle.deque_rules.specs.Deque.{moved_on, start_at};
ghost use Rattle.deque_rules.specs.alone.Ready.{DequeReady};
ghost use Rattle.deque_rules.specs.alone.Work.{ReadsNode, LooksFront, LooksBack, Steps};
ghost use Rattle.deque_alone.specs.Slices.{state_of};

use crate::lending::Deques;
use crate::{NONE, PAST_END};
use deque_rules::alone::Node;

// Where the cursor goes from the node s: to the node after it, or past the end.
#[inline(always)]
pub fn moved_on(next: &[usize], s: usize) -> usize
    requires { s < length next.now }
    ensures { result ≡ moved_on next.now s }
{
    let q = next[s];
    if q == NONE { PAST_END } else { q }
}

// The node x with its element, if it is one.
fn node_at(element: &[u64], x: usize) -> Option<Node>
    ensures { ReadsNode element.now x result }
{
    let element = *element.get(x)?;
    Some(Node { slot: x, element })
}

// The node that next by cursor answers: the cursor's, or the head where the cursor stands at none. Past the end, and in
// an empty deque, no node.
fn start(heads: &[usize], cursors: &[usize], d: usize) -> usize
    requires { (d < length heads.now) × (d < length cursors.now) }
    ensures { result ≡ start_at heads.now cursors.now d }
{
    let c = cursors[d];
    if c == NONE { heads[d] } else { c }
}

impl Deques<'_> {
    // The front of the deque d, if there is one.
    pub fn front(self, cursors: &[usize], free: usize, d: usize) -> Option<Node>
        requires { DequeReady (state_of self cursors.now) free d }
        ensures { LooksFront (state_of self.entry cursors.now) d result }
    {
        node_at(self.element, self.links.heads[d])
    }

    // The back of the deque d, if there is one.
    pub fn back(self, cursors: &[usize], free: usize, d: usize) -> Option<Node>
        requires { DequeReady (state_of self cursors.now) free d }
        ensures { LooksBack (state_of self.entry cursors.now) d result }
    {
        node_at(self.element, self.links.tails[d])
    }

    // Next by cursor: the node at the cursor, which starts at the head; from past the end, and where there is no node,
    // back to none.
    pub fn step(self, cursors: &mut [usize], free: usize, d: usize) -> Option<Node>
        requires { DequeReady (state_of self cursors.old) free d }
        ensures { Steps (state_of self.entry cursors.old) (state_of self.entry cursors.new) d result }
    {
        let s = start(self.links.heads, cursors, d);
        if self.links.next.len() <= s {
            cursors[d] = NONE;
            return None;
        }
        cursors[d] = moved_on(self.links.next, s);
        Some(Node {
            slot: s,
            element: self.element[s],
        })
    }
}
