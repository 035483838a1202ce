// The public calls that look, count or move a cursor: refusals in order, then the work. None asks anything of its
// input. A refused call leaves every record as found.
#![tactic(auto, using(deque_rules::proofs::alone::Refusing::ready))]

ghost use Rattle.deque_rules.specs.Deque.{DequePromised, look_front, look_back, length_of, next_by_cursor, reset_cursor};
ghost use Rattle.deque_alone.specs.Slices.{state_of};

use crate::NONE;
use crate::lending::Deques;
use deque_rules::alone::{Done, Looked, Measured};

impl Deques<'_> {
    // Looks at the front of the deque d: the node and its element, None where the deque is empty, or refuses (4, 16).
    pub fn look_front(self, cursors: &[usize], free: usize, d: usize) -> Looked
        ensures { DequePromised (look_front d) (state_of self.entry cursors.now) free
            (state_of self.entry cursors.now) result }
    {
        self.deque_refusal(cursors, free, d)?;
        Ok(self.front(cursors, free, d))
    }

    // Looks at the back of the deque d: the node and its element, None where the deque is empty, or refuses (4, 16).
    pub fn look_back(self, cursors: &[usize], free: usize, d: usize) -> Looked
        ensures { DequePromised (look_back d) (state_of self.entry cursors.now) free
            (state_of self.entry cursors.now) result }
    {
        self.deque_refusal(cursors, free, d)?;
        Ok(self.back(cursors, free, d))
    }

    // The length of the deque d, or refuses (4, 16).
    pub fn length_of(self, cursors: &[usize], free: usize, d: usize) -> Measured
        ensures { DequePromised (length_of d) (state_of self.entry cursors.now) free
            (state_of self.entry cursors.now) result }
    {
        self.deque_refusal(cursors, free, d)?;
        Ok(self.lens[d])
    }

    // The node at the cursor of the deque d, which starts at the head and moves on; after the last None once. Refuses
    // (4, 16).
    pub fn next_by_cursor(self, cursors: &mut [usize], free: usize, d: usize) -> Looked
        ensures { DequePromised (next_by_cursor d) (state_of self.entry cursors.old) free
            (state_of self.entry cursors.new) result }
    {
        self.deque_refusal(cursors, free, d)?;
        Ok(self.step(cursors, free, d))
    }

    // Puts the cursor of the deque d back to none, or refuses (4, 16).
    pub fn reset_cursor(self, cursors: &mut [usize], free: usize, d: usize) -> Done
        ensures { DequePromised (reset_cursor d) (state_of self.entry cursors.old) free
            (state_of self.entry cursors.new) result }
    {
        self.deque_refusal(cursors, free, d)?;
        cursors[d] = NONE;
        Ok(())
    }
}
