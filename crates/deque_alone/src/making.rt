// Making: the refusal, then the work. It asks nothing of its input. A refused call leaves every record as found.
ghost use Rattle.std.specs.Prelude.{ℕ};
ghost use Rattle.deque_rules.specs.Deque.{DequePromised, make};
ghost use Rattle.deque_alone.specs.Slices.{state_now, SameDeques};

use crate::layout::{clear, zero};
use crate::lending::DequesMut;
use deque_rules::alone::Made;
use numbers::refusals::Refusal;

impl DequesMut<'_> {
    // Makes as many empty deques as there are heads, over as many free nodes as there are next slots, whatever the
    // records held. Answers the first free node, or refuses (3).
    pub fn make(&mut self, cursors: &mut [usize]) -> Made
        ensures does { (free : ℕ) → DequePromised make (state_now self.old cursors.old) free
            (state_now self.new cursors.new) result }
        ensures same { SameDeques self.old self.new }
    {
        if !self.as_read().lent(cursors) {
            return Err(Refusal::LengthsOutOfRange);
        }
        clear(self.lens, cursors);
        zero(self.element);
        Ok(self.links.lay_out())
    }
}
