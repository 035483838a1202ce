// For proved code only, unchecked: lays the records out, whatever they held.
ghost use Rattle.deque_rules.specs.Layout.{Sizes, LaysOut, Empties, Strings};
ghost use Rattle.deque.specs.Slices.{links_now, SameSlices};
ghost use Rattle.std.specs.Prelude.{◌≡◌, length};

use crate::NONE;
use crate::linked::LinkedMut;

// Makes every deque empty.
#[inline(always)]
fn empty(heads: &mut [usize], tails: &mut [usize])
    requires { length tails.old ≡ length heads.old }
    ensures { Empties heads.old heads.new tails.new }
{
    heads.fill(NONE);
    tails.fill(NONE);
}

// Makes every slot free, each followed by the one above it.
#[inline(always)]
fn string(next: &mut [usize], prev: &mut [usize], home: &mut [usize]) -> usize
    requires { (length prev.old ≡ length next.old) × (length home.old ≡ length next.old) }
    ensures { Strings next.old next.new prev.new home.new result }
{
    prev.fill(NONE);
    home.fill(NONE);
    let mut free = NONE;
    for s in (0..next.len()).rev() {
        next[s] = free;
        free = s;
    }
    free
}

impl LinkedMut<'_> {
    // Makes every deque empty and every slot free, in ascending order from 0, and answers the first free slot.
    #[inline(always)]
    pub fn lay_out(&mut self) -> usize
        requires { Sizes (links_now self.old) }
        ensures does { LaysOut (links_now self.old) (links_now self.new) result }
        ensures same { SameSlices self.old self.new }
    {
        empty(self.heads, self.tails);
        string(self.next, self.prev, self.home)
    }
}
