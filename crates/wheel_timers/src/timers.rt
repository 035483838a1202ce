// For proved code only, unchecked: arming, disarming and rearming a timer, on records known to be sound.
// Its calls are made a part of their callers, which then hold the slices in registers. (A clock made over another, by
// `..clock`, was tried here too, and is slower.)
ghost use Rattle.std.specs.Prelude.{◌≡◌};
ghost use Rattle.deque.specs.Slices.{links_now};
ghost use Rattle.rules.specs.Places.{wheel01};
ghost use Rattle.wheel_rules.specs.records.Records.{with_links};
ghost use Rattle.wheel_rules.specs.timers.Timers.{ArmReady, SlotReady, MoveReady, Arms, Disarms, Rearms};
ghost use Rattle.wheel_timers.specs.Slices.{nodes_now, SameNodes};

use crate::lent::NodesMut;
use crate::place::bucket_of;
use wheel_rules::calls::{After, Clock, Handle};

impl NodesMut<'_> {
    // Arms the first free slot for the entry e, with its generation h, at the back of the bucket of its deadline.
    // Answers its handle.
    #[inline(always)]
    pub fn arm(&mut self, clock: Clock, e: usize, h: u32, deadline: u64) -> After<Handle>
        requires { ArmReady wheel01 (nodes_now self.old) clock }
        ensures does { Arms wheel01 (nodes_now self.old) clock (nodes_now self.new) result e h deadline }
        ensures same { SameNodes self.old self.new }
    {
        let slot = clock.free;
        let n = clock.serial;
        let b = bucket_of(clock.reading, deadline);
        let mut after = clock;
        after.free = self.linked.push(slot, b);
        self.write(slot, e, h, n);
        after.serial = n + 1;
        After {
            clock: after,
            answer: Handle { slot, serial: n },
        }
    }

    // Takes the armed slot x out of its bucket and frees it.
    #[inline(always)]
    pub fn disarm(&mut self, clock: Clock, x: usize) -> Clock
        requires { SlotReady wheel01 (nodes_now self.old) clock x }
        ensures does { Disarms wheel01 (nodes_now self.old) clock (nodes_now self.new) result x }
        ensures same { SameNodes self.old self.new }
    {
        self.linked.remove(clock.free, x);
        self.write(x, 0, 0, 0);
        let mut after = clock;
        after.free = x;
        after
    }

    // Moves the armed slot x to the back of the bucket that its deadline has at the reading. Its payload stays.
    #[inline(always)]
    pub fn rearm(&mut self, reading: u64, x: usize, deadline: u64)
        requires { MoveReady wheel01 (links_now self.old.linked) reading x }
        ensures does { Rearms wheel01 (links_now self.old.linked) (links_now self.new.linked) reading x deadline }
        ensures payload { nodes_now self.new ≡ with_links (links_now self.new.linked) (nodes_now self.old) }
        ensures same { SameNodes self.old self.new }
    {
        let b = bucket_of(reading, deadline);
        self.linked.move_back(b, x);
    }
}
