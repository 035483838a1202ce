// For proved code only, unchecked: push, remove, move to the back, turn until a member is last. Each takes constant
// time. The methods are made a part of their callers, which then hold the slices in registers.
ghost use Rattle.std.specs.Prelude.{◌≡◌};
ghost use Rattle.deque_rules.specs.Change.{CanPut, Puts, Linkable, LinksBack, Held, CutsOut, Pushable, PushesBack, Removes, Movable, MovesBack, HeldBy, Ahead};
ghost use Rattle.deque_rules.specs.Change.{Turns};
ghost use Rattle.deque_rules.specs.Links.{links};
ghost use Rattle.deque.specs.Slices.{links_now, SameSlices};

use crate::NONE;
use crate::free::{give_back, take};
use crate::linked::LinkedMut;

// The slot after p in the deque d is q from now on: the head, where p is NONE. With tails and prev: the slot before p.
#[inline(always)]
fn put(ends: &mut [usize], next: &mut [usize], d: usize, p: usize, q: usize)
    requires { CanPut ends.old next.old d p }
    ensures { Puts ends.old next.old ends.new next.new d p q }
{
    if p == NONE {
        ends[d] = q;
    } else {
        next[p] = q;
    }
}

impl LinkedMut<'_> {
    // Links the loose slot s at the back of the deque d.
    #[inline(always)]
    fn link_back(&mut self, d: usize, s: usize)
        requires { Linkable (links_now self.old) d s }
        ensures does { LinksBack (links_now self.old) (links_now self.new) d s }
        ensures same { SameSlices self.old self.new }
    {
        let t = self.tails[d];
        self.tails[d] = s;
        self.prev[s] = t;
        self.next[s] = NONE;
        self.home[s] = d;
        put(self.heads, self.next, d, t, s);
    }

    // Takes the slot s out of its deque. It is loose then.
    #[inline(always)]
    fn unlink(&mut self, s: usize)
        requires { Held (links_now self.old) s }
        ensures does { CutsOut (links_now self.old) (links_now self.new) s }
        ensures same { SameSlices self.old self.new }
    {
        let d = self.home[s];
        let p = self.prev[s];
        let q = self.next[s];
        put(self.heads, self.next, d, p, q);
        put(self.tails, self.prev, d, q, p);
        self.home[s] = NONE;
    }

    // Takes the first free slot, free, and links it at the back of the deque d. Answers the first free slot from then
    // on.
    #[inline(always)]
    pub fn push(&mut self, free: usize, d: usize) -> usize
        requires { Pushable (links_now self.old) free d }
        ensures does { PushesBack (links_now self.old) (links_now self.new) free d result }
        ensures same { SameSlices self.old self.new }
    {
        let rest = take(self.as_read().next, free);
        self.link_back(d, free);
        rest
    }

    // Takes the slot s out of its deque and gives it back, where free is the first free slot: s is the first one then.
    #[inline(always)]
    pub fn remove(&mut self, free: usize, s: usize)
        requires { Held (links_now self.old) s }
        ensures does { Removes (links_now self.old) (links_now self.new) free s }
        ensures same { SameSlices self.old self.new }
    {
        self.unlink(s);
        give_back(self.next, self.prev, s, free);
    }

    // Moves the slot s from its deque to the back of the deque d, which may be the same.
    #[inline(always)]
    pub fn move_back(&mut self, d: usize, s: usize)
        requires { Movable (links_now self.old) d s }
        ensures does { MovesBack (links_now self.old) (links_now self.new) d s }
        ensures same { SameSlices self.old self.new }
    {
        self.unlink(s);
        self.link_back(d, s);
    }

    // Moves the slot s, which is not last, to the back of its own deque d: what `move_back` writes, with no home read
    // or written and no choice but at the front.
    #[inline(always)]
    pub fn move_to_back(&mut self, d: usize, s: usize)
        requires { Ahead (links_now self.old) d s }
        ensures does { MovesBack (links_now self.old) (links_now self.new) d s }
        ensures homes { self.new.home.now ≡ self.old.home.now }
        ensures same { SameSlices self.old self.new }
    {
        let p = self.prev[s];
        let q = self.next[s];
        let t = self.tails[d];
        self.prev[q] = p;
        put(self.heads, self.next, d, p, q);
        self.next[s] = NONE;
        self.next[t] = s;
        self.prev[s] = t;
        self.tails[d] = s;
    }

    // Turns the deque d until its member s is last: what stood after s, what stood before it, s. The records are those
    // of moving nodes from front to back one by one. No home changes.
    #[inline(always)]
    pub fn turn(&mut self, d: usize, s: usize)
        requires { HeldBy (links_now self.old) d s }
        ensures does { Turns (links_now self.old) (links_now self.new) d s }
        ensures homes { self.new.home.now ≡ self.old.home.now }
        ensures same { SameSlices self.old self.new }
    {
        let q = self.next[s];
        if self.next.len() <= q {
            return;
        }
        let h = self.heads[d];
        let t = self.tails[d];
        self.next[t] = h;
        self.prev[h] = t;
        self.next[s] = NONE;
        self.prev[q] = NONE;
        self.heads[d] = q;
        self.tails[d] = s;
    }
}

// The two that write no home stand here as functions of slices too: the methods above ask for homes that are lent to be
// changed, these for homes that are lent for reading alone (what may not change: no call asks more than it did).

// Moves the slot s, which is not last, to the back of its own deque d: what `move_back` writes, with no home read or
// written and no choice but at the front.
pub fn move_to_back(
    heads: &mut [usize],
    tails: &mut [usize],
    next: &mut [usize],
    prev: &mut [usize],
    home: &[usize],
    d: usize,
    s: usize,
)
    requires { Ahead (links heads.old tails.old next.old prev.old home.now) d s }
    ensures { MovesBack (links heads.old tails.old next.old prev.old home.now)
        (links heads.new tails.new next.new prev.new home.now) d s }
{
    let p = prev[s];
    let q = next[s];
    let t = tails[d];
    prev[q] = p;
    put(heads, next, d, p, q);
    next[s] = NONE;
    next[t] = s;
    prev[s] = t;
    tails[d] = s;
}

// Turns the deque d until its member s is last: what stood after s, what stood before it, s. The records are those of
// moving nodes from front to back one by one. No home changes.
pub fn turn(
    heads: &mut [usize],
    tails: &mut [usize],
    next: &mut [usize],
    prev: &mut [usize],
    home: &[usize],
    d: usize,
    s: usize,
)
    requires { HeldBy (links heads.old tails.old next.old prev.old home.now) d s }
    ensures { Turns (links heads.old tails.old next.old prev.old home.now)
        (links heads.new tails.new next.new prev.new home.now) d s }
{
    let q = next[s];
    if next.len() <= q {
        return;
    }
    let h = heads[d];
    let t = tails[d];
    next[t] = h;
    prev[h] = t;
    next[s] = NONE;
    prev[q] = NONE;
    heads[d] = q;
    tails[d] = s;
}
