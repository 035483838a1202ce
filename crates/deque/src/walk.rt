// For proved code only, unchecked: how many slots a deque and the free chain have, where the lent lengths are right.
// Each looks at each slot once and ends on any links, so a test that also looks at something else of each deque can be
// made of them.
ghost use Rattle.std.specs.Prelude.{◌<◌, length};
ghost use Rattle.deque_rules.specs.Layout.{Sizes};
ghost use Rattle.deque_rules.specs.Sound.{Walked, WalkedFree, SizesFree, Tells};
ghost use Rattle.deque.specs.Slices.{links_of};

use crate::NONE;
use crate::linked::Linked;

impl Linked<'_> {
    // How many slots the deque d has, or None where its links are not those of a deque over slots that name it.
    pub fn walk(self, d: usize) -> Option<usize>
        requires { Sizes (links_of self) × (d < length self.heads.now) }
        ensures { Tells (Walked (links_of self.entry) d) result }
    {
        let n = self.next.len();
        let mut b = NONE;
        let mut x = self.heads[d];
        for k in 0..=n {
            if x == NONE {
                return if self.tails[d] == b { Some(k) } else { None };
            }
            if n <= x || self.prev[x] != b || self.home[x] != d {
                return None;
            }
            b = x;
            x = self.next[x];
        }
        None
    }

    // How many slots are chained from free, or None where that is no chain of slots that name no deque.
    pub fn walk_free(self, free: usize) -> Option<usize>
        requires { SizesFree self.next.now self.home.now }
        ensures { Tells (WalkedFree self.entry.next.now self.entry.home.now free) result }
    {
        let n = self.next.len();
        let mut x = free;
        for k in 0..=n {
            if x == NONE {
                return Some(k);
            }
            if n <= x || self.home[x] != NONE {
                return None;
            }
            x = self.next[x];
        }
        None
    }
}
