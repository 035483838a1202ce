// What a workload does to the wheel. The calls are unchecked: the records show a sound wheel all the time, and what
// they do not allow is not done.
ghost use Rattle.std.specs.Prelude.{◌≡◌};
ghost use Rattle.bench.specs.Kept.{shown, Works, SameSize, Opens};

use crate::wheels::records::{BUCKETS, Wheel};
use crate::wheels::told::Told;
use deque::NONE;
use wheel_advance::pull::pull;
use wheel_rules::calls::Event;
use wheel_timers::moments::start;

impl Wheel<'_> {
    // Arms the entry for the deadline: its slot, or NONE where there is no such entry, slot or serial.
    #[inline(always)]
    pub fn arm(&mut self, e: usize, due: u64) -> usize
        requires { Works (shown self.old) }
        ensures works { Works (shown self.new) }
        ensures size { SameSize self.old self.new }
    {
        if e >= self.entries.dated.len() {
            return NONE;
        }
        if self.clock.free >= self.nodes.linked.next.len() || self.clock.serial == u64::MAX {
            return NONE;
        }
        self.entries.set_entry(e, true, due, 0);
        let armed = self.nodes.arm(self.clock, e, 0, due);
        self.clock = armed.clock;
        armed.answer.slot
    }

    // Disarms the slot x, if it is armed: whether it was.
    #[inline(always)]
    pub fn disarm(&mut self, x: usize) -> bool
        requires { Works (shown self.old) }
        ensures works { Works (shown self.new) }
        ensures size { SameSize self.old self.new }
    {
        if x < BUCKETS
            || x >= self.nodes.linked.home.len()
            || self.nodes.linked.home[x] >= BUCKETS
        {
            return false;
        }
        self.clock = self.nodes.disarm(self.clock, x);
        true
    }

    // An advance to the reading q, from its start to its end.
    #[inline(always)]
    pub fn advance(&mut self, q: u64, told: &mut Told)
        requires { Works (shown self.old) }
        ensures works { Works (shown self.new) }
        ensures size { SameSize self.old self.new }
        ensures reading { self.new.clock.reading ≡ q }
    {
        self.open_to(q);
        for _ in 0..u64::MAX {
            match self.pull() {
                Event::End => break,
                event => told.take(event),
            }
        }
    }

    // Opens an advance to the reading q.
    #[inline(always)]
    fn open_to(&mut self, q: u64)
        requires { Works (shown self.old) }
        ensures works { Works (shown self.new) }
        ensures size { SameSize self.old self.new }
        ensures opens { Opens self.old.clock q self.new.clock }
    {
        self.clock = start(self.clock, q);
    }

    // An event of the open advance, or its end; the end too where none is open.
    #[inline(always)]
    fn pull(&mut self) -> Event
        requires { Works (shown self.old) }
        ensures works { Works (shown self.new) }
        ensures size { SameSize self.old self.new }
        ensures reading { self.new.clock.reading ≡ self.old.clock.reading }
    {
        if !self.clock.open {
            return Event::End;
        }
        let after = pull(&mut self.nodes, &self.entries.as_read(), self.clock);
        self.clock = after.clock;
        after.answer
    }
}
