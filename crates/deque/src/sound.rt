// The test of links and free chain. It assumes nothing, looks at each slot once, and ends on any links.
ghost use Rattle.deque_rules.specs.Sound.{Verdict, Sized};
ghost use Rattle.deque.specs.Slices.{links_of};

use crate::NONE;
use crate::linked::Linked;

impl Linked<'_> {
    // Whether the records are those of deques and free slots, with no slot in neither.
    pub fn sound(self, free: usize) -> bool
        ensures { Verdict (links_of self.entry) free result }
    {
        if !self.sized() {
            return false;
        }
        let mut total: usize = 0;
        for d in 0..self.heads.len() {
            let Some(k) = self.walk(d) else {
                return false;
            };
            total += k;
        }
        let Some(k) = self.walk_free(free) else {
            return false;
        };
        total + k == self.next.len()
    }

    // Whether the lent lengths are those of deques and slots.
    pub fn sized(self) -> bool
        ensures { Sized (links_of self.entry) result }
    {
        self.heads.len() <= NONE
            && self.next.len() <= NONE
            && self.tails.len() == self.heads.len()
            && self.prev.len() == self.next.len()
            && self.home.len() == self.next.len()
    }
}
