// For proved code only, unchecked: the payload of a slot: entry, generation and serial.
ghost use Rattle.std.specs.Prelude.{◌≡◌, ◌<◌, length};
ghost use Rattle.deque.specs.Slices.{links_now};
ghost use Rattle.wheel_rules.specs.timers.Change.{Writes};
ghost use Rattle.wheel_timers.specs.Slices.{SameNodes};

use crate::lent::NodesMut;

impl NodesMut<'_> {
    // Writes the payload of the slot x. The links stay.
    #[inline(always)]
    pub fn write(&mut self, x: usize, e: usize, h: u32, n: u64)
        requires { (x < length self.old.entry.now) × (x < length self.old.generation.now) × (x < length self.old.serial.now) }
        ensures does { Writes
            self.old.entry.now self.old.generation.now self.old.serial.now self.new.entry.now
            self.new.generation.now self.new.serial.now x e h n }
        ensures links { links_now self.new.linked ≡ links_now self.old.linked }
        ensures same { SameNodes self.old self.new }
    {
        self.entry[x] = e;
        self.generation[x] = h;
        self.serial[x] = n;
    }
}
