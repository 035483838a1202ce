// For proved code only, unchecked: the work of the calls that link and unlink nodes, on records known to be sound. A
// caller shows that the records are sound (or tests it once).
ghost use Rattle.std.specs.Prelude.{◌<◌, ◌≡◌, length};
ghost use Rattle.deque_rules.specs.Change.{HeldBy};
ghost use Rattle.deque_rules.specs.Deque.{state, step_off};
ghost use Rattle.deque_rules.specs.alone.Ready.{DequeReady, PushReady, NodeReady};
ghost use Rattle.deque_rules.specs.alone.Work.{Pushes, Drops, Moves, Pops, Shifts};
ghost use Rattle.deque.specs.Slices.{links_now, SameSlices};
ghost use Rattle.deque_alone.specs.Slices.{records, state_now, SameDeques};

use crate::lending::DequesMut;
use crate::looks::moved_on;
use deque::change::move_to_back;
use deque::linked::LinkedMut;
use deque_rules::alone::Taken;

// Moves the cursor of the deque d on if it stands at s.
#[inline(always)]
fn step_off(cursors: &mut [usize], next: &[usize], d: usize, s: usize)
    requires { (d < length cursors.old) × (s < length next.now) }
    ensures { cursors.new ≡ step_off cursors.old next.now d s }
{
    if cursors[d] == s {
        cursors[d] = moved_on(next, s);
    }
}

impl DequesMut<'_> {
    // Push back, where a node is free and d is a deque. Answers the first free node then.
    pub fn push(&mut self, cursors: &[usize], free: usize, d: usize, e: u64) -> usize
        requires { PushReady (state_now self.old cursors.now) free d }
        ensures does { Pushes (state_now self.old cursors.now) (state_now self.new cursors.now) free d e result }
        ensures same { SameDeques self.old self.new }
    {
        let rest = self.links.push(free, d);
        self.lens[d] += 1;
        self.element[free] = e;
        rest
    }

    // Unlinks the node s of the deque d and frees it. Answers its element; s is the first free node then.
    pub fn release(&mut self, cursors: &mut [usize], free: usize, d: usize, s: usize) -> u64
        requires { NodeReady (state_now self.old cursors.old) free d s }
        ensures does { Drops (state_now self.old cursors.old) (state_now self.new cursors.new) free d s result }
        ensures same { SameDeques self.old self.new }
    {
        let element = self.element[s];
        self.lens[d] -= 1;
        step_off(cursors, self.links.as_read().next, d, s);
        self.links.remove(free, s);
        self.element[s] = 0;
        element
    }

    // Pop front.
    pub fn pop(&mut self, cursors: &mut [usize], free: usize, d: usize) -> Option<Taken>
        requires { DequeReady (state_now self.old cursors.old) free d }
        ensures does { Pops (state_now self.old cursors.old) (state_now self.new cursors.new) free d result }
        ensures same { SameDeques self.old self.new }
    {
        let slot = self.links.heads[d];
        if self.links.next.len() <= slot {
            return None;
        }
        let element = self.release(cursors, free, d, slot);
        Some(Taken {
            slot,
            element,
            free: slot,
        })
    }

    // Moves the node s of the deque d to its back. The tail stays where it is, and the cursor on it too.
    pub fn shift(&mut self, cursors: &mut [usize], free: usize, d: usize, s: usize)
        requires { NodeReady (state_now self.old cursors.old) free d s }
        ensures does { Moves (state_now self.old cursors.old) (state_now self.new cursors.new) free d s }
        ensures same { SameDeques self.old self.new }
    {
        to_back(&mut self.links, cursors, d, s);
    }
}

// The same on records of which lengths, homes and elements are lent for reading: a move writes none, and no call asks
// more than it did.
pub fn shift(
    heads: &mut [usize],
    tails: &mut [usize],
    lens: &[usize],
    cursors: &mut [usize],
    next: &mut [usize],
    prev: &mut [usize],
    home: &[usize],
    element: &[u64],
    free: usize,
    d: usize,
    s: usize,
)
    requires { NodeReady (state heads.old tails.old lens.now cursors.old next.old prev.old home.now element.now) free
        d s }
    ensures { Moves (state heads.old tails.old lens.now cursors.old next.old prev.old home.now element.now)
        (state heads.new tails.new lens.now cursors.new next.new prev.new home.now element.now) free d s }
{
    if tails[d] == s {
        return;
    }
    step_off(cursors, next, d, s);
    move_to_back(heads, tails, next, prev, home, d, s);
}

// The same on links that are lent for changing.
pub(crate) fn shift_links(
    links: &mut LinkedMut<'_>,
    lens: &[usize],
    cursors: &mut [usize],
    element: &[u64],
    free: usize,
    d: usize,
    s: usize,
)
    requires { NodeReady (records (links_now links.old) lens.now cursors.old element.now) free d s }
    ensures does { Moves (records (links_now links.old) lens.now cursors.old element.now)
        (records (links_now links.new) lens.now cursors.new element.now) free d s }
    ensures same { SameSlices links.old links.new }
{
    to_back(links, cursors, d, s);
}

// What a move writes.
fn to_back(links: &mut LinkedMut<'_>, cursors: &mut [usize], d: usize, s: usize)
    requires { HeldBy (links_now links.old) d s × (d < length cursors.old) }
    ensures does { Shifts (links_now links.old) cursors.old (links_now links.new) cursors.new d s }
    ensures same { SameSlices links.old links.new }
{
    if links.tails[d] == s {
        return;
    }
    step_off(cursors, links.as_read().next, d, s);
    links.move_to_back(d, s);
}
