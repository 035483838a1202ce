// The soundness of a wheel's lent records (refusal 4): each clause of 01's "Sound means" is a test of its own, and a
// wheel is sound where all of them hold.
// The test assumes nothing of what the records hold, goes over the records a fixed number of times where serials are
// near each other, and ends on any records.
// No `requires`.
ghost use Rattle.wheel_rules.specs.Lent.{records};
ghost use Rattle.wheel_rules.specs.sound.Sound.{Verdict};
ghost use Rattle.wheel_timers.specs.Slices.{nodes_of, entries_of};

pub mod lengths; // whether the lent lengths are those at enabling
pub mod position; // where an open advance stands
pub mod serials; // unchecked: whether armed serials differ
pub mod slots; // unchecked: what is asked of each slot by itself

use crate::sound::lengths::lengths_kept;
use crate::sound::position::advance_stands;
use crate::sound::serials::serials_differ;
use crate::sound::slots::{entries_exist, kinds, serials_below};
use wheel_rules::calls::Clock;
use wheel_timers::lent::{Entries, Nodes};

// Whether the records are those of a sound wheel with `total` buckets. Both generations, of a node and of an entry, are
// asked for their lengths alone.
pub fn is_sound(nodes: Nodes<'_>, entries: Entries<'_>, clock: Clock, total: usize) -> bool
    ensures { Verdict total (records (nodes_of nodes.entry) (entries_of entries.entry) clock) result }
{
    let links = nodes.linked;
    lengths_kept(nodes, entries, clock, total)
        && advance_stands(clock)
        && kinds(links.home, total)
        && links.sound(clock.free)
        && entries_exist(links.home, nodes.entry, total, clock.entries)
        && serials_below(links.home, nodes.serial, total, clock.serial)
        && serials_differ(links.home, nodes.serial, total)
}
