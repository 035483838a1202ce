// For proved code only, unchecked: the records as enabling lays them out, whatever they held.
ghost use Rattle.std.specs.Prelude.{◌≡◌, length};
ghost use Rattle.deque.specs.Slices.{links_now, SameSlices};
ghost use Rattle.rules.specs.Places.{wheel01};
ghost use Rattle.wheel_rules.specs.layout.Layout.{enabled_with, SeatReady, Seats, ClearsEntries, LayReady, Lays};
ghost use Rattle.wheel_timers.specs.Slices.{nodes_now, entries_now, SameNodes, SameEntries};

use crate::lent::{EntriesMut, NodesMut};
use crate::moments::end;
use deque::linked::LinkedMut;
use wheel_rules::calls::Clock;

// Links each sentinel alone in its bucket; the slots after the sentinels are free, in ascending order.
#[inline(always)]
fn seat(linked: &mut LinkedMut<'_>)
    requires { SeatReady (links_now linked.old) }
    ensures does { Seats (links_now linked.old) (links_now linked.new) }
    ensures same { SameSlices linked.old linked.new }
{
    let mut free = linked.lay_out();
    for b in 0..linked.heads.len() {
        free = linked.push(free, b);
    }
}

// The clock of a wheel just enabled.
#[inline(always)]
pub fn enabled(clock: Clock, total: usize, nodes: usize, entries: usize) -> Clock
    ensures { result ≡ enabled_with total nodes entries clock }
{
    // (made over the ended clock, by `..end(clock)`, it was tried, and is slower)
    let mut after = end(clock);
    after.enabled = true;
    after.free = total;
    after.nodes = nodes;
    after.entries = entries;
    after
}

impl EntriesMut<'_> {
    // Makes every entry one without a deadline, of generation 0.
    #[inline(always)]
    pub fn clear(&mut self)
        requires { (length self.old.deadline.now ≡ length self.old.dated.now) ×
            (length self.old.generation.now ≡ length self.old.dated.now) }
        ensures does { ClearsEntries
            self.old.dated.now self.old.deadline.now self.old.generation.now self.new.dated.now
            self.new.deadline.now self.new.generation.now }
        ensures same { SameEntries self.old self.new }
    {
        self.dated.fill(false);
        self.deadline.fill(0);
        self.generation.fill(0);
    }
}

// Sentinels placed, other slots free, no advance, each entry without a deadline.
#[inline(always)]
pub fn lay_out(nodes: &mut NodesMut<'_>, entries: &mut EntriesMut<'_>, clock: Clock) -> Clock
    requires { LayReady wheel01 (nodes_now nodes.old) (entries_now entries.old) }
    ensures does { Lays
        wheel01 (nodes_now nodes.old) (entries_now entries.old) clock (nodes_now nodes.new)
        (entries_now entries.new) result }
    ensures same_nodes { SameNodes nodes.old nodes.new }
    ensures same_entries { SameEntries entries.old entries.new }
{
    let after = enabled(
        clock,
        nodes.linked.heads.len(),
        nodes.linked.next.len(),
        entries.dated.len(),
    );
    seat(&mut nodes.linked);
    nodes.entry.fill(0);
    nodes.generation.fill(0);
    nodes.serial.fill(0);
    entries.clear();
    after
}
