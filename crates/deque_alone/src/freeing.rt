// The public calls that take a node out and free it: refusals in order, then the work. None asks anything of its input.
// A refused call leaves every record as found.
#![tactic(auto, using(deque_rules::proofs::alone::Refusing::ready))]

ghost use Rattle.deque_rules.specs.Deque.{DequePromised, pop_front, unlink_and_drop};
ghost use Rattle.deque_alone.specs.Slices.{state_now, SameDeques};

use crate::lending::DequesMut;
use deque_rules::alone::{Dropped, Freed, Popped};

impl DequesMut<'_> {
    // Takes the front of the deque d out and frees its node. Answers the node and its element, None where the deque is
    // empty, or refuses (4, 16).
    pub fn pop_front(&mut self, cursors: &mut [usize], free: usize, d: usize) -> Popped
        ensures does { DequePromised (pop_front d) (state_now self.old cursors.old) free
            (state_now self.new cursors.new) result }
        ensures same { SameDeques self.old self.new }
    {
        self.as_read().deque_refusal(cursors, free, d)?;
        Ok(self.pop(cursors, free, d))
    }

    // Unlinks the node s of the deque d and frees it. Answers its element, or refuses (4, 16, 17).
    pub fn unlink_and_drop(
        &mut self,
        cursors: &mut [usize],
        free: usize,
        d: usize,
        s: usize,
    ) -> Dropped
        ensures does { DequePromised (unlink_and_drop d s) (state_now self.old cursors.old) free
            (state_now self.new cursors.new) result }
        ensures same { SameDeques self.old self.new }
    {
        self.as_read().node_refusal(cursors, free, d, s)?;
        let element = self.release(cursors, free, d, s);
        Ok(Freed { element, free: s })
    }
}
