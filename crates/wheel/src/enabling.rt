// Enable: refusals in order, then the work. No `requires`. A refused call leaves every record as found.
ghost use Rattle.wheel_rules.specs.Lent.{records};
ghost use Rattle.wheel_rules.specs.Promise.{timed_clock, timed_says, enabling, Promised};
ghost use Rattle.wheel_timers.specs.Slices.{nodes_now, entries_now, SameNodes, SameEntries};

use numbers::refusals::Refusal;
use wheel_refusals::enable_refusal;
use wheel_rules::calls::Clock;
use wheel_timers::layout::lay_out;
use wheel_timers::lent::{EntriesMut, NodesMut};

// Enables the wheel over the lent records: sentinels placed, other slots free in ascending order, no advance, each
// entry without a deadline and of generation 0, whatever the records held. Refuses (2, 3).
pub fn enable(
    nodes: &mut NodesMut<'_>,
    entries: &mut EntriesMut<'_>,
    clock: Clock,
) -> Result<Clock, Refusal>
    ensures does { Promised (enabling (records (nodes_now nodes.old) (entries_now entries.old) clock))
        (records (nodes_now nodes.old) (entries_now entries.old) clock)
        (records (nodes_now nodes.new) (entries_now entries.new) (timed_clock clock result)) (timed_says result) }
    ensures same { SameNodes nodes.old nodes.new × SameEntries entries.old entries.new }
{
    enable_refusal(nodes.as_read(), entries.as_read(), clock)?;
    Ok(lay_out(nodes, entries, clock))
}
