// For proved code only, unchecked: the free slots, a chain by next. The last one given back is the first one taken.
ghost use Rattle.std.specs.Prelude.{◌<◌, length};
ghost use Rattle.deque_rules.specs.Free.{Takes, GivesBack};

use crate::NONE;

// Takes the first free slot, free: answers the one that is the first then. The records stay as they are, and free is
// loose.
#[inline(always)]
pub fn take(next: &[usize], free: usize) -> usize
    requires { free < length next.now }
    ensures { Takes next.now free result }
{
    next[free]
}

// Gives the loose slot s back, where free is the first free slot: s is the first one then.
pub fn give_back(next: &mut [usize], prev: &mut [usize], s: usize, free: usize)
    requires { (s < length next.old) × (s < length prev.old) }
    ensures { GivesBack next.old prev.old next.new prev.new s free }
{
    next[s] = free;
    prev[s] = NONE;
}
