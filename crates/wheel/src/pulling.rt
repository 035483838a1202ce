// Pull: refusals in order, then the work. No `requires`. A refused call leaves every record as found.
ghost use Rattle.rules.specs.Wheel.{pull};
ghost use Rattle.wheel_rules.specs.Lent.{records};
ghost use Rattle.wheel_rules.specs.Promise.{clock_after, pulled_says, Promised};
ghost use Rattle.wheel_timers.specs.Slices.{nodes_now, entries_of, SameNodes};

use numbers::refusals::Refusal;
use wheel_refusals::open_refusal;
use wheel_rules::calls::{After, Clock, Event};
use wheel_timers::lent::{Entries, NodesMut};

// One event of the open advance, or End, which closes it and keeps its reading. It does no more than reach its answer.
// Refuses (1, 4, 6).
pub fn pull(
    nodes: &mut NodesMut<'_>,
    entries: Entries<'_>,
    clock: Clock,
) -> Result<After<Event>, Refusal>
    ensures does { Promised pull (records (nodes_now nodes.old) (entries_of entries.entry) clock)
        (records (nodes_now nodes.new) (entries_of entries.entry) (clock_after clock result)) (pulled_says result) }
    ensures same { SameNodes nodes.old nodes.new }
{
    open_refusal(nodes.as_read(), entries, clock)?;
    Ok(wheel_advance::pull::pull(nodes, &entries, clock))
}
