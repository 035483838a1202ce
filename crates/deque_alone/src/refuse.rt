// Which refusal applies: that of the lowest number of 01 whose row holds. Each reads the records and changes nothing.
ghost use Rattle.deque_rules.specs.alone.Refuse.{RefusesDeque, RefusesPush, RefusesNode};
ghost use Rattle.deque_alone.specs.Slices.{state_of};
ghost use Rattle.numbers.specs.Rows.{refusal_in};

use crate::NONE;
use crate::lending::Deques;
use numbers::refusals::Refusal;

impl Deques<'_> {
    // Length, pop front, looks, next by cursor, reset cursor: 4, 16.
    pub fn deque_refusal(self, cursors: &[usize], free: usize, d: usize) -> Result<(), Refusal>
        ensures { RefusesDeque (state_of self.entry cursors.now) free d (refusal_in result) }
    {
        if !self.sound(cursors, free) {
            return Err(Refusal::NotSound);
        }
        if self.links.heads.len() <= d {
            return Err(Refusal::NoSuchDeque);
        }
        Ok(())
    }

    // Push back: 4, 10, 16.
    pub fn push_refusal(self, cursors: &[usize], free: usize, d: usize) -> Result<(), Refusal>
        ensures { RefusesPush (state_of self.entry cursors.now) free d (refusal_in result) }
    {
        if !self.sound(cursors, free) {
            return Err(Refusal::NotSound);
        }
        if free == NONE {
            return Err(Refusal::NoFreeSlot);
        }
        if self.links.heads.len() <= d {
            return Err(Refusal::NoSuchDeque);
        }
        Ok(())
    }

    // Move to back, unlink and drop: 4, 16, 17.
    pub fn node_refusal(
        self,
        cursors: &[usize],
        free: usize,
        d: usize,
        s: usize,
    ) -> Result<(), Refusal>
        ensures { RefusesNode (state_of self.entry cursors.now) free d s (refusal_in result) }
    {
        if !self.sound(cursors, free) {
            return Err(Refusal::NotSound);
        }
        if self.links.heads.len() <= d {
            return Err(Refusal::NoSuchDeque);
        }
        let home = self.links.home;
        if home.len() <= s || home[s] != d {
            return Err(Refusal::NotInThisDeque);
        }
        Ok(())
    }
}
